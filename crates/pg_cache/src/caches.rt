//! A cache of pages.

ghost use Rattle.std.specs.Prelude.{◌≡◌, ◌≤◌, ◌<◌, ◌+◌, ◌*◌, ◌==◌, ℕ, List, Some, IfOk, OnOk, OnErr, length, map};
ghost use Rattle.std.specs.List.{list_any};
ghost use Rattle.ct_site.specs.Disks.{IsSame, Leaves, Works};
ghost use Rattle.ct_site.specs.Lengths.{IsWithin, Lengthens};
ghost use Rattle.pg_journal.specs.Pages.{changed, home, page};
ghost use Rattle.pg_journal.specs.Standing.{commit_end, homes_with, DiskStands, IsEither, MayCommit, OverPages};
ghost use Rattle.pg_journal.specs.Syncs.{SyncsAtMost};
ghost use Rattle.pg_cache.specs.Caches.{bytes_at, renewed, HasNoOther, KeepsNone, RenewsAll, IsCacheOf};

use ct_base::Memory;
use ct_site::{Disk, Failed};
use lru::LruCache;
use pg_journal::{ChangedPages, Journal};
use std::alloc::Global;
use std::marker::Model;
use std::num::NonZeroUsize;

/// How many places a cache has at most.
const PLACES: usize = 256;

/// A place of a cache: the number of the home page that it has, or 0 where it has none, and its bytes.
#[derive(Drop)]
struct Frame {
    number: u32,
    bytes: [u8; 4096],
}

impl Model for Frame {
    ghost use Rattle.pg_journal.specs.Pages.{Numbered};

    ghost Value = { Numbered };

    ghost view = { λ f. (f.number, f.bytes) };
}

impl Frame {
    /// One without a page.
    fn empty() -> Frame
        ensures { result.0 ≡ 0 }
    {
        Frame {
            number: 0,
            bytes: [0; 4096],
        }
    }

    /// Whether it has the page of a number.
    fn has(&self, number: u32) -> bool
        ensures { result ≡ (self.now.0 == number) }
    {
        self.number == number
    }

    /// Reads the home page of a number from the disk. Where that fails, it has no page.
    fn load<D: Disk>(&mut self, disk: &mut D, number: u32) -> Result<(), Failed>
        requires within { IsWithin (4096 * number + 4096) (D.disk disk.old) }
        ensures number { OnOk result (self.new.0 ≡ number) }
        ensures none { OnErr result (self.new.0 ≡ 0) }
        ensures bytes { (image : List ℕ) → (D.disk disk.old).image ≡ Some image → OnOk result (self.new.1 ≡ page image number) }
        ensures same { IsSame (D.disk disk.old) (D.disk disk.new) }
        ensures works { Works (D.disk disk.old) (D.disk disk.new) result }
    {
        self.number = 0;
        disk.read(4096 * number as u64, &mut self.bytes)?;
        self.number = number;
        Ok(())
    }

    /// Puts other bytes in place of its own, if it has the page of this number.
    fn renew(&mut self, number: u32, bytes: &[u8; 4096])
        ensures { self.new ≡ renewed number bytes.now self.old }
    {
        if self.number == number {
            self.bytes = *bytes;
        }
    }
}

/// The home pages of a store that were used last, fewer than 256 of them, each at a place of its own. Where there is no memory for a
/// new place, a page stands at the first one until another needs it.
#[derive(Drop)]
pub struct PageCache {
    frames: Vec<Frame>,
    /// The places by the numbers of the pages that were put there last, in the order of their use. The first place isn't among them.
    places: LruCache<u32, usize>,
}

impl Model for PageCache {
    ghost use Rattle.std.specs.Prelude.{◌<◌, List, length};
    ghost use Rattle.pg_journal.specs.Pages.{Numbered};

    ghost Value = { List Numbered };

    ghost view = { λ c. c.frames.items };

    ghost invariant = { λ c. 0 < length c.frames.items };
}

impl PageCache {
    /// A cache that keeps no page yet.
    pub fn new(alloc: Global) -> Result<PageCache, Memory>
        ensures { IfOk result (λ cache. KeepsNone cache) }
    {
        let Some(cap) = NonZeroUsize::new(PLACES) else {
            unreachable!()
        };
        let mut frames = Vec::new(alloc);
        let Ok(()) = frames.push(Frame::empty()) else {
            return Err(Memory);
        };
        match LruCache::new(alloc, cap) {
            Ok(places) => Ok(PageCache { frames, places }),
            Err(_) => Err(Memory),
        }
    }

    /// The place for a page that has none yet: a new one, else that of the page that was used least recently, else the first one.
    fn free_place(&mut self, number: u32) -> usize
        ensures within { result < length self.new }
        ensures fewer { HasNoOther self.old self.new }
    {
        let mut at = 0;
        if self.frames.len() < PLACES {
            if let Ok(()) = self.frames.push(Frame::empty()) {
                at = self.frames.len() - 1;
            }
        } else if let Some((_, last)) = self.places.pop_lru() {
            at = last;
        }
        if at == 0 || at >= self.frames.len() {
            return 0;
        }
        let _ = self.places.put(number, at);
        at
    }

    /// The place for the page of a number: the one where it stands, or stood, else a free one.
    fn place_for(&mut self, number: u32) -> usize
        ensures within { result < length self.new }
        ensures fewer { HasNoOther self.old self.new }
    {
        let known = self.places.get(&number).copied();
        match known {
            Some(at) if at < self.frames.len() => at,
            _ => self.free_place(number),
        }
    }

    /// Whether the page of a number is kept.
    fn keeps(&self, number: u32) -> bool
        ensures { result ≡ list_any (λ w. w.0 == number) self.now }
    {
        self.frames.iter().any(|frame| frame.has(number))
    }

    /// Puts a page in place of the one of its number at each place.
    fn renew(&mut self, number: u32, bytes: &[u8; 4096])
        ensures { self.new ≡ map (renewed number bytes.now) self.old }
    {
        for i in 0..self.frames.len() {
            let frame = &mut self.frames[i];
            frame.renew(number, bytes);
        }
    }

    /// Puts the pages of a batch in place of those of the same numbers that are kept. It takes no memory.
    fn renew_all<B: ChangedPages>(&mut self, batch: &B)
        ensures { RenewsAll (B.pages batch.now) self.old self.new }
    {
        let numbers = batch.numbers();
        for i in 0..numbers.len() {
            if self.keeps(numbers[i]) {
                self.renew(numbers[i], &batch.image(i));
            }
        }
    }

    /// Keeps no page where the store has become shorter. It takes no memory.
    fn cut(&mut self, homes: u32, before: u32)
        ensures fewer { HasNoOther self.old self.new }
        ensures within { homes < before → KeepsNone self.new }
    {
        if homes < before {
            self.frames.truncate(1);
            let first = &mut self.frames[0];
            first.number = 0;
            self.places.clear();
        }
    }

    /// Brings the home page of a number into the cache, and says at which place it stands there, until another page is sought: where it
    /// stood, or else at one where it is read from the disk. It takes no memory but that for a place.
    pub fn seek<D: Disk>(
        &mut self,
        disk: &mut D,
        journal: &Journal,
        number: u32,
    ) -> Result<usize, Failed>
        requires cache { IsCacheOf (D.disk disk.old) journal.now self.old }
        requires least { 2 ≤ number }
        requires less { number < journal.now }
        ensures within { IfOk result (λ at. at < length self.new) }
        ensures page { (pages : List (List ℕ)) → DiskStands (D.disk disk.old) journal.now pages → IfOk result (λ at. bytes_at self.new at ≡ home pages number) }
        ensures cache { IsCacheOf (D.disk disk.new) journal.now self.new }
        ensures same { IsSame (D.disk disk.old) (D.disk disk.new) }
        ensures works { Works (D.disk disk.old) (D.disk disk.new) result }
    {
        let at = self.place_for(number);
        let frame = &mut self.frames[at];
        if frame.has(number) {
            return Ok(at);
        }
        frame.load(disk, number)?;
        Ok(at)
    }

    /// The page at a place.
    pub fn page(&self, at: usize) -> &[u8; 4096]
        requires { at < length self.now }
        ensures { result.now ≡ bytes_at self.now at }
    {
        let frame = &self.frames[at];
        &frame.bytes
    }

    /// Puts the pages of a batch on those of the store, as `Journal::commit` does, and in place of those of the same numbers that are
    /// kept. It takes no memory. After an error the journal is loaded again, with a new cache.
    pub fn commit<D: Disk, B: ChangedPages>(
        &mut self,
        disk: &mut D,
        journal: &mut Journal,
        batch: &B,
    ) -> Result<(), Failed>
        requires cache { IsCacheOf (D.disk disk.old) journal.old self.old }
        requires may { MayCommit journal.old (B.pages batch.now) }
        ensures moments { OverPages (D.disk disk.old) journal.old (λ pages. Leaves (D.disk disk.old) (D.disk disk.new) (IsEither pages (B.pages batch.now))) }
        ensures stands { OverPages (D.disk disk.old) journal.old (λ pages. OnOk result (DiskStands (D.disk disk.new) journal.new (changed (B.pages batch.now) pages))) }
        ensures cache { OnOk result (IsCacheOf (D.disk disk.new) journal.new self.new) }
        ensures length { Lengthens (commit_end journal.old (B.pages batch.now)) (D.disk disk.old) (D.disk disk.new) }
        ensures syncs { SyncsAtMost 4 (D.disk disk.old) (D.disk disk.new) }
        ensures works { Works (D.disk disk.old) (D.disk disk.new) result }
        ensures homes { OnOk result (journal.new ≡ homes_with journal.old (B.pages batch.now)) }
        ensures err { OnErr result (journal.new ≡ journal.old) }
    {
        let before = journal.homes();
        journal.commit(disk, batch)?;
        self.renew_all(batch);
        self.cut(journal.homes(), before);
        Ok(())
    }
}
