//! A keeper of a content in the pages of a store file.

ghost use Rattle.std.specs.Prelude.{◌≡◌, true};
ghost use Rattle.ct_keep.specs.KeeperStates.{no_counts};
ghost use Rattle.pg_keeper.specs.Paged.{IsUsable, paged_view};
ghost use Rattle.pg_keeper.specs.laws.Paged.{paged_counts_now, paged_durable, paged_holds, paged_may_stay, paged_now};

use ct_keep::{Batch, KeepFault, Keeper, Shape, Tally};
use ct_site::{Failed, Site};
use pg_heap::Heap;
use std::alloc::Global;

/// A keeper of a content in the pages of a store file, which hears and says by the site that has the file. It holds the entries
/// that its shape takes. A look-up, and each change of a commit, cost the logarithm of the number of entries; a commit also goes over the
/// list of all leaves of the directory in memory, writes the pages that it changes, and syncs four times at most.
pub struct PagedKeeper<'a, S, H> {
    site: &'a mut S,
    heap: Heap,
    shape: H,
    limit: u64,
    counts: Tally,
}

impl<'a, S: Site, H: Shape + Drop> PagedKeeper<'a, S, H> {
    /// A keeper over a site and the heap that was loaded from its disk, whose content may weigh `limit`. It takes no memory.
    pub fn over(site: &'a mut S, heap: Heap, shape: H, limit: u64) -> PagedKeeper<'a, S, H>
        ensures site { result.site.now ≡ site.old }
        ensures lender { result.site.ghost_name ≡ site.entry.ghost_name }
        ensures heap { result.heap ≡ heap }
        ensures shape { result.shape ≡ shape }
        ensures limit { result.limit ≡ limit }
        ensures counts { result.counts ≡ no_counts }
    {
        PagedKeeper {
            site,
            heap,
            shape,
            limit,
            counts: Tally::new(),
        }
    }

    /// Gives the site back.
    pub fn finish(self) -> &'a mut S
        ensures site { result.now ≡ self.entry.site.now }
        ensures lender { result.ghost_name ≡ self.entry.site.ghost_name }
    {
        let PagedKeeper {
            site,
            heap: _,
            shape: _,
            limit: _,
            counts: _,
        } = self;
        site
    }
}

impl<'a, S: Site, H: Shape> Keeper for PagedKeeper<'a, S, H> {
    ghost view = { λ k. paged_view (S.disk k.site.now) k.heap (H.is_well k.shape) k.limit k.counts k.site.ghost_name };

    fn fetch(&mut self, alloc: Global, key: &[u8]) -> Result<Option<Vec<u8>>, KeepFault> {
        self.counts.look_up(key, None);
        self.heap.fetch(alloc, self.site, key)
    }

    fn next_after(
        &mut self,
        alloc: Global,
        key: &[u8],
    ) -> Result<Option<(Vec<u8>, Vec<u8>)>, KeepFault> {
        let found = self.heap.next_after(alloc, self.site, key);
        self.counts.hand_out(key, &found);
        found
    }

    fn count(&self, owner: &[u8]) -> u64 {
        self.heap.count(owner)
    }

    fn commit(&mut self, alloc: Global, batch: Batch) -> Result<(), KeepFault> {
        let done = self.heap.apply_within(alloc, self.site, batch, self.limit);
        self.counts.commit(&done);
        done
    }

    fn hear(&mut self, into: &mut [u8]) -> Result<usize, Failed> {
        self.site.hear(into)
    }

    fn say(&mut self, bytes: &[u8]) -> Result<usize, Failed> {
        self.site.say(bytes)
    }

    ghost settled = { λ k ready. paged_durable (S.disk k.site.now) k.heap (H.is_well k.shape) k.limit k.counts k.site.ghost_name ready };

    ghost holds = { λ k ready m is. paged_holds (S.disk k.site.now) k.heap (H.is_well k.shape) k.limit k.counts k.site.ghost_name ready m is };

    ghost counts_now = { λ k t stopped said le now. paged_counts_now (S.disk k.site.now) k.heap (H.is_well k.shape) k.limit k.counts k.site.ghost_name (S.counts_now k.site.now) t stopped said le now };

    ghost may_stay = { λ k ready m said is was. paged_may_stay (S.disk k.site.now) k.heap (H.is_well k.shape) k.limit k.counts k.site.ghost_name (S.may_stay k.site.now) ready m said is was };

    ghost only_now = { λ k stopped said now. paged_now (S.disk k.site.now) k.heap (H.is_well k.shape) k.limit k.counts k.site.ghost_name (S.only_now k.site.now) stopped said now };
}
