//! Which calls of a site in memory fail.

ghost use Rattle.std.specs.Prelude.{◌≡◌};
ghost use Rattle.ct_site.specs.Memory.{no_faults};

use ct_base::Numbers;
use std::alloc::Global;

/// The numbers of the calls that fail, in any order. Calls of one kind are counted from 1. The count of calls stands still
/// at 2^64 - 1, so where that number is listed every call from it on fails.
#[derive(Clone, Debug, Drop)]
pub struct Faults {
    /// Calls of `hear`.
    pub hear: Numbers,
    /// Calls of `say`.
    pub say: Numbers,
    /// Calls of `size`, `read`, `write_at` and `sync` together.
    pub disk: Numbers,
    /// How many calls of any kind are made before all later ones fail; None where they never do so.
    pub stop: Option<u64>,
}

impl Faults {
    /// No call fails. It takes no memory.
    pub fn none(alloc: Global) -> Faults
        ensures { result ≡ no_faults }
    {
        Faults {
            hear: Numbers::of(Vec::new(alloc)),
            say: Numbers::of(Vec::new(alloc)),
            disk: Numbers::of(Vec::new(alloc)),
            stop: None,
        }
    }
}
