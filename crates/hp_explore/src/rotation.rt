//! The order in which a search tries the processors.
ghost use Rattle.std.specs.Prelude.{◌≡◌, ◌<◌};
ghost use Rattle.hp_explore.specs.Searches.{cpu_at, first_at, number_at};

use hp_schedules::mixed;

/// Returns the processor that a search with this seed tries first after `depth` calls: the seed
/// itself if it is the number of a processor, and otherwise one that depends on the seed and the
/// depth.
fn first_at(processors: u32, seed: u64, depth: usize) -> u32
    requires { 0 < processors }
    ensures is { result ≡ first_at processors seed depth }
    ensures less { result < processors }
{
    if seed < u64::from(processors) {
        seed as u32
    } else {
        (mixed(seed, depth as u64) % u64::from(processors)) as u32
    }
}

/// Returns the processor that is tried as number `number` after `depth` calls. The order is the
/// first processor (`first_at`), those above it, and then those below it, from processor 0 on.
pub(crate) fn cpu_at(processors: u32, seed: u64, depth: usize, number: u32) -> u32
    requires { number < processors }
    ensures { result ≡ cpu_at processors seed depth number }
{
    let first = first_at(processors, seed, depth);
    let above = processors - first;
    if number < above {
        first + number
    } else {
        number - above
    }
}

/// Returns the number as which the processor is tried after `depth` calls.
pub(crate) fn number_at(processors: u32, seed: u64, depth: usize, cpu: u32) -> u32
    requires { cpu < processors }
    ensures is { result ≡ number_at processors seed depth cpu }
    ensures less { result < processors }
{
    let first = first_at(processors, seed, depth);
    if cpu < first {
        cpu + (processors - first)
    } else {
        cpu - first
    }
}
