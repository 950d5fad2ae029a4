//! Batches of pages whose images are in memory.

ghost use Rattle.std.specs.Prelude.{◌≡◌, ◌≤◌, ◌<◌, ◌+◌, ◌*◌, ◌^◌, ◌++◌, [], ℕ, List, IfOk, IsTrue, IsFalse, length, take, drop, vec_len};
ghost use Rattle.std.specs.Vec.{vec_capacity};
ghost use Rattle.pg_journal.specs.BatchStates.{place_in, pages_in};
ghost use Rattle.pg_journal.specs.Pages.{AreBetween, Has, with_more};

use crate::changed_pages::ChangedPages;
use ct_base::Memory;
use std::alloc::Global;
use std::marker::Model;

/// Pages that are to be committed together, with their images in memory. All its memory is taken when it is made.
#[derive(Debug, Drop)]
pub struct PageBatch {
    numbers: Vec<u32>,
    bytes: Vec<u8>,
    room: u32,
}

impl Model for PageBatch {
    ghost use Rattle.pg_journal.specs.BatchStates.{BatchState};
    ghost use Rattle.pg_journal.specs.BatchFields.{batch_of, IsBatch};

    ghost Value = { BatchState };

    ghost view = { batch_of };

    ghost invariant = { IsBatch };
}

impl PageBatch {
    /// A batch with room for so many pages.
    pub fn new(alloc: Global, room: u32) -> Result<PageBatch, Memory>
        ensures { IfOk result (λ batch. batch ≡ record { room = room; pages = [] }) }
    {
        let mut numbers = Vec::new(alloc);
        numbers.reserve_exact(room as usize)?;
        let mut bytes = Vec::new(alloc);
        bytes.reserve_exact(4096 * room as usize)?;
        Ok(PageBatch {
            numbers,
            bytes,
            room,
        })
    }

    /// Puts a page into the batch, which has no page of its number yet. It takes no memory. Where the number is above all
    /// others its cost is that of the page alone; else the pages above it are moved.
    pub fn put(&mut self, page: u32, bytes: &[u8; 4096])
        requires room { length self.old.pages < self.old.room }
        requires least { 2 ≤ page }
        requires new { Has self.old.pages page → ⊥ }
        ensures { self.new ≡ record { room = self.old.room; pages = with_more (page, bytes.now) self.old.pages } }
    {
        let at = place_of(&self.numbers, page);
        let _ = self.numbers.insert(at, page);
        insert_page(&mut self.bytes, at, bytes);
    }

    /// Whether it has no page. Its pages are in order of their numbers.
    pub fn is_empty(&self) -> bool
        ensures yes { IsTrue result → self.now.pages ≡ [] }
        ensures no { IsFalse result → 1 ≤ length self.now.pages }
        ensures numbers { AreBetween 2 (2 ^ 32) self.now.pages }
    {
        self.numbers.is_empty()
    }

    /// Whether it has a page of a number.
    pub fn has(&self, page: u32) -> bool
        ensures yes { IsTrue result → Has self.now.pages page }
        ensures no { IsFalse result → Has self.now.pages page → ⊥ }
    {
        self.numbers.binary_search(&page).is_ok()
    }
}

impl ChangedPages for PageBatch {
    ghost pages = { λ b. b.pages };

    fn numbers(&self) -> &[u32] {
        &self.numbers
    }

    fn image(&self, index: usize) -> [u8; 4096] {
        image_in(&self.bytes, index)
    }
}

/// The image at an index among the bytes of images, one behind the other.
fn image_in(bytes: &[u8], index: usize) -> [u8; 4096]
    requires { 4096 * index + 4096 ≤ length bytes.now }
    ensures { result ≡ take 4096 (drop (4096 * index) bytes.now) }
{
    let at = 4096 * index;
    let mut image = [0; 4096];
    image.copy_from_slice(&bytes[at..at + 4096]);
    image
}

/// How many of the numbers, which rise, are below this one.
fn place_of(numbers: &[u32], number: u32) -> usize
    ensures { (bytes : List ℕ) → AreBetween 2 (2 ^ 32) (pages_in numbers.now bytes) → result ≡ place_in number (pages_in numbers.now bytes) }
{
    match numbers.binary_search(&number) {
        Ok(at) => at,
        Err(at) => at,
    }
}

/// Puts the bytes of a page behind those of so many pages, in memory that is there.
fn insert_page(all: &mut Vec<u8>, at: usize, bytes: &[u8; 4096])
    requires within { 4096 * at ≤ vec_len all.old }
    requires room { vec_len all.old + 4096 ≤ vec_capacity all.old }
    ensures items { all.new.items ≡ take (4096 * at) all.old.items ++ (bytes.now ++ drop (4096 * at) all.old.items) }
    ensures capacity { vec_capacity all.old ≤ vec_capacity all.new }
{
    let _ = all.extend_from_slice(bytes);
    all[4096 * at..].rotate_right(4096);
}
