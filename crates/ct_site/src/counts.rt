//! Counts of calls, of faults, and of how often the end of the script was told, which stand still at 2^64 - 1.

ghost use Rattle.std.specs.Prelude.{◌≡◌, ◌≤◌, ◌==◌};
ghost use Rattle.ct_site.specs.FaultCounts.{raised, raised_if};
ghost use Rattle.ct_site.specs.Memory.{is_listed, is_past};

use crate::outside::Failed;
use ct_base::Numbers;

/// Counts a call, and tells whether it is listed as one that fails.
pub(crate) fn count_call(calls: &mut u64, numbers: &Numbers) -> bool
    ensures counted { calls.new ≡ raised calls.old }
    ensures listed { result ≡ is_listed calls.old numbers.now }
{
    *calls = calls.saturating_add(1);
    numbers.as_slice().contains(calls)
}

/// Counts a call, and tells whether it comes after the last one that is made.
pub(crate) fn count_stop(calls: &mut u64, stop: Option<u64>) -> bool
    ensures counted { calls.new ≡ raised calls.old }
    ensures past { result ≡ is_past stop calls.old }
{
    let is_past = match stop {
        Some(last) => *calls >= last,
        None => false,
    };
    *calls = calls.saturating_add(1);
    is_past
}

/// Counts one more.
pub(crate) fn count_one(count: &mut u64)
    ensures { count.new ≡ raised count.old }
{
    *count = count.saturating_add(1);
}

/// Counts an end of the script, which is told where no byte was heard.
pub(crate) fn count_end(ends: &mut u64, heard: usize)
    ensures { ends.new ≡ raised_if (heard == 0) ends.old }
{
    if heard == 0 {
        count_one(ends);
    }
}

/// Counts a fault.
pub(crate) fn count_fault(faults: &mut u64) -> Failed
    ensures raised { faults.new ≡ raised faults.old }
    ensures later { faults.old ≤ faults.new }
{
    *faults = faults.saturating_add(1);
    Failed
}
