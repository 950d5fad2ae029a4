//! Stores in memory, and calls of the heap that is loaded from one.

ghost use Rattle.std.specs.Prelude.{IfOk, IsTrue, OnOk};
ghost use Rattle.ct_keep.specs.Changes.{AnyEntry, AreWell};
ghost use Rattle.pg_heap.specs.Heaps.{IsDirected, IsReady};

use ct_base::{Memory, Numbers};
use ct_keep::{Batch, KEY_LIMIT, Shape};
use ct_site::{Disk, Faults, MemSite, Rooms};
use pg_heap::Heap;
use pg_journal::LoadFault;
use pg_keeper::load_heap;
use std::alloc::Global;

const ROOMS: Rooms = Rooms {
    image: 400_000,
    said: 0,
    calls: 4000,
    written: 4_000_000,
};

/// A store of this image, of which this call of the disk fails, if there is one; 0 for none.
pub(crate) fn site_of(alloc: Global, image: &[u8], call: u64) -> Result<MemSite, Memory> {
    let mut faults = Faults::none(alloc);
    faults.disk = Numbers::of(Vec::from_slice(alloc, &[call])?);
    let count = image.len().min(ROOMS.image);
    let image = Vec::from_slice(alloc, &image[..count])?;
    MemSite::new(alloc, Vec::new(alloc), image, faults, ROOMS)
}

/// How many pages behind the root, of fewer than 256 home pages, begin with this byte: 0 for free ones, 1 for slotted ones, 2 for long ones,
/// 3 for those of the directory.
pub(crate) fn pages_of(image: &[u8], first: u8) -> usize {
    let mut count = 0usize;
    for page in 3..homes_of(image) as usize {
        if image.get(4096 * page) == Some(&first) {
            count = count.saturating_add(1);
        }
    }
    count
}

/// How many home pages a store has, of fewer than 256.
pub(crate) fn homes_of(image: &[u8]) -> u8 {
    match image.get(8199) {
        Some(homes) => *homes,
        None => 0,
    }
}

/// Whether the root of a store names a page as the top of a directory.
pub(crate) fn has_top(image: &[u8]) -> bool {
    match image.get(8200..8204) {
        Some(top) => top != [0; 4].as_slice(),
        None => false,
    }
}

/// Takes every entry.
pub(crate) struct AnyShape;

impl Shape for AnyShape {
    ghost is_well = { λ _. AnyEntry };

    fn well(&self, _alloc: Global, _key: &[u8], _value: &[u8]) -> Result<bool, Memory> {
        Ok(true)
    }
}

/// The heap of a store, whatever its entries are.
pub(crate) fn heap_of<D: Disk>(alloc: Global, disk: &mut D) -> Result<Heap, LoadFault>
    ensures ready { IfOk result (λ heap. IsReady (D.disk disk.new) heap) }
    ensures directed { IfOk result (λ heap. IsDirected heap) }
{
    load_heap(alloc, disk, &AnyShape)
}

/// The bytes of which a value of this length is made.
fn byte_of(count: usize) -> u8 {
    (count % 251) as u8
}

/// Adds the change that a key gets the value of a length, or loses its entry. A key without a byte or past the limit gets none, nor is a value
/// longer than 9000 bytes.
pub(crate) fn add_change(
    alloc: Global,
    batch: &mut Batch,
    key: &[u8],
    count: Option<usize>,
) -> Result<(), Memory>
    ensures { AreWell AnyEntry batch.old → OnOk result (AreWell AnyEntry batch.new) }
{
    let key = Vec::from_slice(alloc, key)?;
    let Some(count) = count else {
        return batch.remove(key);
    };
    if key.is_empty() || key.len() > KEY_LIMIT || count > 9000 {
        return Ok(());
    }
    batch.put(key, Vec::from_elem(alloc, byte_of(count), count)?)
}

/// A batch of one such change, of a key of one byte.
fn batch_of(alloc: Global, key: u8, count: Option<usize>) -> Result<Batch, Memory>
    ensures { IfOk result (AreWell AnyEntry) }
{
    let mut batch = Batch::new(alloc);
    add_change(alloc, &mut batch, &[key], count)?;
    Ok(batch)
}

/// Whether a batch of one change was applied.
fn is_changed<D: Disk>(
    alloc: Global,
    disk: &mut D,
    heap: &mut Heap,
    key: u8,
    count: Option<usize>,
) -> Result<bool, Memory>
    requires ready { IsReady (D.disk disk.old) heap.old }
    requires directed { IsDirected heap.old }
    ensures ready { IfOk result (λ is. IsTrue is → IsReady (D.disk disk.new) heap.new) }
    ensures directed { IfOk result (λ is. IsTrue is → IsDirected heap.new) }
{
    let batch = batch_of(alloc, key, count)?;
    match heap.apply(alloc, disk, batch) {
        Ok(()) => Ok(true),
        Err(_) => Ok(false),
    }
}

/// How many bytes a value has, if it is that of its length.
fn count_of(value: &[u8]) -> Option<usize> {
    for byte in value {
        if *byte != byte_of(value.len()) {
            return None;
        }
    }
    Some(value.len())
}

/// Whether a key has the value of a length, or none.
fn has<D: Disk>(alloc: Global, disk: &mut D, heap: &mut Heap, key: u8, count: Option<usize>) -> bool
    requires ready { IsReady (D.disk disk.old) heap.old }
    requires directed { IsDirected heap.old }
    ensures ready { IsReady (D.disk disk.new) heap.new }
    ensures directed { IsDirected heap.new }
{
    match heap.fetch(alloc, disk, &[key]) {
        Ok(Some(value)) => count.is_some() && count_of(&value) == count,
        Ok(None) => count.is_none(),
        Err(_) => false,
    }
}

/// Whether there is nothing.
fn is_empty<D: Disk>(alloc: Global, disk: &mut D, heap: &mut Heap) -> bool
    requires ready { IsReady (D.disk disk.old) heap.old }
    requires directed { IsDirected heap.old }
    ensures ready { IsReady (D.disk disk.new) heap.new }
    ensures directed { IsDirected heap.new }
{
    let weight = heap.weight();
    match heap.next_after(alloc, disk, b"") {
        Ok(None) => weight == 0,
        _ => false,
    }
}

/// What is done with a heap, or is to be there.
#[derive(Clone, Copy)]
pub(crate) enum Step {
    /// The key gets the value of a length, of 9000 bytes at most.
    Put(u8, usize),
    /// Its entry goes.
    Remove(u8),
    /// It has the value of a length.
    Has(u8, usize),
    /// It has none.
    Lacks(u8),
    /// There is no entry.
    Empty,
}

/// Whether a step was done.
fn is_done<D: Disk>(
    alloc: Global,
    disk: &mut D,
    heap: &mut Heap,
    step: Step,
) -> Result<bool, Memory>
    requires ready { IsReady (D.disk disk.old) heap.old }
    requires directed { IsDirected heap.old }
    ensures ready { IfOk result (λ is. IsTrue is → IsReady (D.disk disk.new) heap.new) }
    ensures directed { IfOk result (λ is. IsTrue is → IsDirected heap.new) }
{
    match step {
        Step::Put(key, count) => is_changed(alloc, disk, heap, key, Some(count)),
        Step::Remove(key) => is_changed(alloc, disk, heap, key, None),
        Step::Has(key, count) => Ok(has(alloc, disk, heap, key, Some(count))),
        Step::Lacks(key) => Ok(has(alloc, disk, heap, key, None)),
        Step::Empty => Ok(is_empty(alloc, disk, heap)),
    }
}

/// Whether steps were done in one heap.
fn are_done_in<D: Disk>(
    alloc: Global,
    disk: &mut D,
    heap: &mut Heap,
    steps: &[Step],
) -> Result<bool, Memory>
    requires ready { IsReady (D.disk disk.old) heap.old }
    requires directed { IsDirected heap.old }
{
    for step in steps {
        if !is_done(alloc, disk, heap, *step)? {
            return Ok(false);
        }
    }
    Ok(true)
}

/// Whether steps were done in the heap of a store, which is loaded once.
pub(crate) fn are_done<D: Disk>(
    alloc: Global,
    disk: &mut D,
    steps: &[Step],
) -> Result<bool, Memory> {
    match heap_of(alloc, disk) {
        Ok(mut heap) => are_done_in(alloc, disk, &mut heap, steps),
        Err(_) => Ok(false),
    }
}

/// Whether steps were done in the heap of a store, which is loaded for each of them.
pub(crate) fn are_done_anew<D: Disk>(
    alloc: Global,
    disk: &mut D,
    steps: &[Step],
) -> Result<bool, Memory> {
    for index in 0..steps.len() {
        if !are_done(alloc, disk, &steps[index..index + 1])? {
            return Ok(false);
        }
    }
    Ok(true)
}

/// How long the value of a key is in one heap, if it is there.
fn length_in<D: Disk>(alloc: Global, disk: &mut D, heap: &mut Heap, key: &[u8]) -> Option<usize>
    requires ready { IsReady (D.disk disk.old) heap.old }
    requires directed { IsDirected heap.old }
{
    match heap.fetch(alloc, disk, key) {
        Ok(Some(value)) => Some(value.len()),
        _ => None,
    }
}

/// The same in the heap of a store.
pub(crate) fn value_length<D: Disk>(alloc: Global, disk: &mut D, key: &[u8]) -> Option<usize> {
    match heap_of(alloc, disk) {
        Ok(mut heap) => length_in(alloc, disk, &mut heap, key),
        Err(_) => None,
    }
}

/// The next key behind this one.
fn next_key<D: Disk>(alloc: Global, disk: &mut D, heap: &mut Heap, key: &[u8]) -> Option<Vec<u8>>
    requires ready { IsReady (D.disk disk.old) heap.old }
    requires directed { IsDirected heap.old }
    ensures ready { IsReady (D.disk disk.new) heap.new }
    ensures directed { IsDirected heap.new }
{
    match heap.next_after(alloc, disk, key) {
        Ok(Some((next, _))) => Some(next),
        _ => None,
    }
}

/// The keys in one heap in order, with a blank behind each, 5000 at most.
pub(crate) fn keys_in<D: Disk>(
    alloc: Global,
    disk: &mut D,
    heap: &mut Heap,
) -> Result<Vec<u8>, Memory>
    requires ready { IsReady (D.disk disk.old) heap.old }
    requires directed { IsDirected heap.old }
    ensures ready { IsReady (D.disk disk.new) heap.new }
    ensures directed { IsDirected heap.new }
{
    let mut all = Vec::new(alloc);
    let mut key = Vec::new(alloc);
    for _ in 0..5000 {
        let Some(next) = next_key(alloc, disk, heap, &key) else {
            return Ok(all);
        };
        add_key(&mut all, &next)?;
        key = next;
    }
    Ok(all)
}

fn add_key(all: &mut Vec<u8>, key: &[u8]) -> Result<(), Memory> {
    all.extend_from_slice(key)?;
    all.push(b' ')?;
    Ok(())
}

/// The same in the heap of a store; nothing where there is none.
pub(crate) fn keys_of<D: Disk>(alloc: Global, disk: &mut D) -> Result<Vec<u8>, Memory> {
    match heap_of(alloc, disk) {
        Ok(mut heap) => keys_in(alloc, disk, &mut heap),
        Err(_) => Ok(Vec::new(alloc)),
    }
}
