//! The places of free pages.

ghost use Rattle.std.specs.Prelude.{◌≡◌, ◌++◌, ◌∷◌, [], IfOk, IfSome, IsNone, OnOk, drop};
ghost use Rattle.std.specs.Vec.{vec_capacity};

use ct_base::Memory;
use std::alloc::Global;
use std::marker::Model;

/// The places of free pages, which are taken from the end. The list can go back to what it was without taking memory.
#[derive(Debug, Drop)]
pub struct FreeList {
    /// Those that there were.
    first: Vec<usize>,
    /// How many of them are left.
    left: usize,
    /// Those that were added since. There is memory for them behind the first.
    added: Vec<usize>,
}

impl Model for FreeList {
    ghost use Rattle.pg_plan.specs.FreePlaces.{FreePlaces};
    ghost use Rattle.pg_plan.specs.FreeFields.{free_places_of, IsFreeList};

    ghost Value = { FreePlaces };

    ghost view = { free_places_of };

    ghost invariant = { IsFreeList };
}

impl FreeList {
    /// The list of these places. It takes no memory.
    pub fn of(alloc: Global, places: Vec<usize>) -> FreeList
        ensures { result ≡ record { before = places.items; now = places.items } }
    {
        let left = places.len();
        FreeList {
            first: places,
            left,
            added: Vec::new(alloc),
        }
    }

    /// Takes the place that is listed last.
    pub fn take(&mut self) -> Option<usize>
        ensures before { self.new.before ≡ self.old.before }
        ensures some { IfSome result (λ at. self.old.now ≡ self.new.now ++ at ∷ []) }
        ensures none { IsNone result → self.old.now ≡ [] }
        ensures same { IsNone result → self.new ≡ self.old }
    {
        if let Some(at) = self.added.pop() {
            return Some(at);
        }
        if self.left == 0 {
            return None;
        }
        self.left -= 1;
        Some(self.first[self.left])
    }

    /// Lists a place more.
    pub fn add(&mut self, at: usize) -> Result<(), Memory>
        ensures before { self.new.before ≡ self.old.before }
        ensures ok { OnOk result (self.new.now ≡ self.old.now ++ at ∷ []) }
    {
        self.first.reserve(self.added.len() + 1)?;
        self.added.push(at)?;
        Ok(())
    }

    /// Goes back to what it was. It takes no memory.
    pub fn roll_back(&mut self)
        ensures { self.new ≡ record { before = self.old.before; now = self.old.before } }
    {
        self.left = self.first.len();
        self.added.clear();
    }

    /// Keeps what it is. It takes no memory.
    pub fn settle(&mut self)
        ensures { self.new ≡ record { before = self.old.now; now = self.old.now } }
    {
        self.first.truncate(self.left);
        let Ok(()) = self.first.append(&mut self.added) else {
            unreachable!()
        };
        self.left = self.first.len();
    }

    /// The places, in another list.
    pub fn copied(&self, alloc: Global) -> Result<Vec<usize>, Memory>
        ensures { IfOk result (λ places. places.items ≡ self.now.now) }
    {
        let mut places = Vec::from_slice(alloc, &self.first[..self.left])?;
        places.extend_from_slice(&self.added)?;
        Ok(places)
    }

    /// Takes so many places that are listed first, for good. It takes no memory.
    pub fn drop_first(&mut self, count: usize)
        ensures { self.new ≡ record { before = drop count self.old.now; now = drop count self.old.now } }
    {
        self.first.truncate(self.left);
        let Ok(()) = self.first.append(&mut self.added) else {
            unreachable!()
        };
        drop_front(&mut self.first, count);
        self.left = self.first.len();
    }
}

/// Lets go of so many places at the front. It takes no memory.
fn drop_front(places: &mut Vec<usize>, count: usize)
    ensures items { places.new.items ≡ drop count places.old.items }
    ensures capacity { vec_capacity places.new ≡ vec_capacity places.old }
{
    let all = places.len();
    let taken = count.min(all);
    places.rotate_left(taken);
    places.truncate(all - taken);
}
