//! Where there may be room.

ghost use Rattle.std.specs.Prelude.{◌≡◌};

use crate::free_lists::FreeList;

/// Where there is room: the places of all free pages, and of pages that may have room for a string. The latter are tried before they
/// are used, so one that is lost, for want of memory or as one of another kind, costs room in the file and nothing else.
#[derive(Debug, Drop)]
pub struct Hints {
    pub free: FreeList,
    pub roomy: Vec<usize>,
}

impl Hints {
    /// Notes a page that a string was put on or taken from.
    pub(crate) fn add_roomy(&mut self, at: usize)
        ensures { self.new.free ≡ self.old.free }
    {
        if self.roomy.last() != Some(&at) {
            let _ = self.roomy.push(at);
        }
    }
}
