//! How many first calls decide the part that a schedule belongs to.
ghost use Rattle.std.specs.Prelude.{◌≡◌, ℕ, ◌*◌, ◌^◌, ◌<◌, ◌≤◌};

/// For each part, there are to be at least this many orders of the first calls.
const SCHEDULES_A_PART: u32 = 64;

/// Returns how many first calls should decide a schedule's part, so that the parts have about equal
/// work. This is the smallest number of calls that have at least 64 orders per part, if no script
/// ends before them. Returns 0 for fewer than two parts or processors.
pub fn calls_for(processors: u32, parts: u32) -> u32
    ensures one { parts < 2 → result ≡ 0 }
    ensures alone { processors < 2 → result ≡ 0 }
    ensures enough { 2 ≤ parts → 2 ≤ processors → SCHEDULES_A_PART * parts ≤ processors ^ result }
    ensures fewest { (d : ℕ) → d < result → processors ^ d < SCHEDULES_A_PART * parts }
{
    if parts < 2 || processors < 2 {
        return 0;
    }
    let most = u64::from(SCHEDULES_A_PART) * u64::from(parts) - 1;
    most.ilog(u64::from(processors)) + 1
}
