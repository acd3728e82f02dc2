//! Numbers of the processors' lists.
ghost use Rattle.std.specs.Prelude.{◌≡◌, ◌+◌, ◌*◌, ◌<◌};
ghost use Rattle.hp_units.specs.Memory.{pool_index};

use crate::ListNumber;
use hp_units::{Cpu, Pool};

/// Returns the number of a processor's list of a pool.
pub fn cpu_list(cpu: Cpu, pool: Pool) -> ListNumber
    requires { cpu < 64 }
    ensures { result ≡ 3 * cpu + pool_index pool }
{
    ListNumber(3 * cpu.0 + pool.index())
}
