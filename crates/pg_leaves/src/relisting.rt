//! The leaves of a directory, made anew where edits touch them.

ghost use Rattle.std.specs.Prelude.{◌≡◌, ◌≤◌, ◌<◌, ◌+◌, ◌*◌, Err, IfOk, OnOk, length};
ghost use Rattle.ct_site.specs.Disks.{IsSame};
ghost use Rattle.pg_cache.specs.Caches.{IsCacheOf};
ghost use Rattle.pg_directory.specs.Fetching.{ReadsDisk};
ghost use Rattle.pg_directory.specs.Levels.{leasts_of};
ghost use Rattle.pg_leaves.specs.Relisting.{made_count, AreNextPlaces, ArePagesOfLeaves, ArePutNext, IsNextWithin, IsRelisted, OverLeaves, OverNamed};

use crate::editing::edit_places;
use crate::edits::Edit;
use crate::finding::{least_entries, next_leaf};
use crate::parting::{LeafNow, put_gone, put_kept, put_leaves};
use ct_base::Memory;
use ct_keep::KeepFault;
use ct_site::Disk;
use pg_cache::PageCache;
use pg_directory::{Child, EntryAt, named_places};
use pg_journal::Journal;
use std::alloc::Global;

/// How many entries a leaf names at most.
const ENTRIES: usize = 681;

/// The leaves of a directory after a batch, in order, and the numbers of the pages of leaves that don't stay.
#[derive(Debug, Drop)]
pub struct Relisted {
    pub leaves: Vec<LeafNow>,
    pub gone: Vec<u32>,
}

/// The next leaves: so many that stay, then the ones up to `end`, at most one, to which so many edits belong, and the places that stand for them.
#[derive(Debug, Drop)]
struct NextPlaces {
    kept: usize,
    end: usize,
    edits: usize,
    places: Vec<EntryAt>,
}

/// The places that a leaf names, if there is a leaf. Where the bytes that are read are those of no leaf, it answers Memory.
fn read_leaf<D: Disk>(
    alloc: Global,
    disk: &mut D,
    cache: &mut PageCache,
    journal: &Journal,
    leaf: &[Child],
) -> Result<Vec<EntryAt>, KeepFault>
    requires one { length leaf.now ≤ 1 }
    requires cache { IsCacheOf (D.disk disk.old) journal.now cache.old }
    ensures places { OverNamed (D.disk disk.old) journal.now leaf.now result (λ es places. places.items ≡ es) }
    ensures few { IfOk result (λ places. length places.items ≤ 681 * length leaf.now) }
    ensures cache { IsCacheOf (D.disk disk.new) journal.now cache.new }
    ensures same { IsSame (D.disk disk.old) (D.disk disk.new) }
    ensures full { result ≡ Err KeepFault.Full → ⊥ }
    ensures reads { ReadsDisk (D.disk disk.old) (D.disk disk.new) result }
{
    let places = match named_places(alloc, disk, cache, journal, leaf) {
        Ok(places) => places,
        Err(fault) => return Err(fault),
    };
    if places.len() > ENTRIES * leaf.len() {
        return Err(KeepFault::Memory);
    }
    Ok(places)
}

/// The places that stand for the next leaf to which edits belong. It reads the page of this leaf, and the pages of keys that are compared.
fn next_places<D: Disk>(
    alloc: Global,
    disk: &mut D,
    cache: &mut PageCache,
    journal: &Journal,
    leaves: &[Child],
    leasts: &[EntryAt],
    edits: &[Edit],
) -> Result<NextPlaces, KeepFault>
    requires some { 1 ≤ length edits.now }
    requires leasts { leasts.now ≡ leasts_of leaves.now }
    requires cache { IsCacheOf (D.disk disk.old) journal.now cache.old }
    ensures next { OverLeaves (D.disk disk.old) journal.now leaves.now edits.now result (λ pages es us next. AreNextPlaces pages leaves.now es us next) }
    ensures within { IfOk result (λ next. IsNextWithin (length leaves.now) (length edits.now) next) }
    ensures cache { IsCacheOf (D.disk disk.new) journal.now cache.new }
    ensures same { IsSame (D.disk disk.old) (D.disk disk.new) }
    ensures full { result ≡ Err KeepFault.Full → ⊥ }
    ensures reads { ReadsDisk (D.disk disk.old) (D.disk disk.new) result }
{
    let Ok(found) = next_leaf(disk, cache, journal, leasts, edits) else {
        return Err(KeepFault::Disk);
    };
    let Some(next) = found else {
        return Err(KeepFault::Memory);
    };
    let end = leaves.len().min(next.at + 1);
    let own = match read_leaf(alloc, disk, cache, journal, &leaves[next.at..end]) {
        Ok(own) => own,
        Err(fault) => return Err(fault),
    };
    let places = match edit_places(alloc, disk, cache, journal, &own, &edits[..next.edits]) {
        Ok(places) => places,
        Err(fault) => return Err(fault),
    };
    Ok(NextPlaces {
        kept: next.at,
        end,
        edits: next.edits,
        places,
    })
}

/// Appends what becomes of the next leaves, and the pages of those that don't stay.
fn put_next(
    alloc: Global,
    leaves: &[Child],
    next: &NextPlaces,
    now: &mut Vec<LeafNow>,
    gone: &mut Vec<u32>,
) -> Result<(), Memory>
    requires { IsNextWithin (length leaves.now) next.now.edits next.now }
    ensures put { OnOk result (ArePutNext leaves.now next.now now.old.items now.new.items gone.old.items gone.new.items) }
    ensures few { OnOk result (length now.new.items ≤ length now.old.items + next.now.end + next.now.edits) }
{
    put_kept(&leaves[..next.kept], now)?;
    put_leaves(alloc, &next.places, next.end == leaves.len(), now)?;
    put_gone(&leaves[next.kept..next.end], gone)?;
    Ok(())
}

/// The leaves of a directory after a batch, where its leaves were these, and its edits come in order of key; with no leaves, those of all places
/// that the edits give. For each leaf that has edits it compares the keys of the logarithm of the number of leaves, reads the leaf, and compares
/// one key for each of its edits, and for each the keys of the logarithm of the number of its places. It takes 40 bytes a leaf. Where the bytes
/// that are read are those of no store, it answers Memory.
pub fn relist<D: Disk>(
    alloc: Global,
    disk: &mut D,
    cache: &mut PageCache,
    journal: &Journal,
    leaves: &[Child],
    edits: &[Edit],
) -> Result<Relisted, KeepFault>
    requires { IsCacheOf (D.disk disk.old) journal.now cache.old }
    ensures leaves { OverLeaves (D.disk disk.old) journal.now leaves.now edits.now result (λ pages es us now. IsRelisted pages leaves.now es us now) }
    ensures pages { IfOk result (λ now. ArePagesOfLeaves leaves.now now.leaves.items now.gone.items) }
    ensures few { IfOk result (λ now. length now.leaves.items ≤ length leaves.now + length edits.now) }
    ensures gone { IfOk result (λ now. length now.gone.items ≤ length edits.now) }
    ensures made { IfOk result (λ now. made_count now.leaves.items ≤ length now.gone.items + length edits.now) }
    ensures cache { IsCacheOf (D.disk disk.new) journal.now cache.new }
    ensures same { IsSame (D.disk disk.old) (D.disk disk.new) }
    ensures full { result ≡ Err KeepFault.Full → ⊥ }
    ensures reads { ReadsDisk (D.disk disk.old) (D.disk disk.new) result }
{
    let Ok(least) = least_entries(alloc, leaves) else {
        return Err(KeepFault::Memory);
    };
    let mut now = Vec::new(alloc);
    let mut gone = Vec::new(alloc);
    let mut rest = leaves;
    let mut leasts = least.as_slice();
    let mut later = edits;
    while !later.is_empty() {
        let next = match next_places(alloc, disk, cache, journal, rest, leasts, later) {
            Ok(next) => next,
            Err(fault) => return Err(fault),
        };
        let Ok(()) = put_next(alloc, rest, &next, &mut now, &mut gone) else {
            return Err(KeepFault::Memory);
        };
        rest = &rest[next.end..];
        leasts = &leasts[next.end..];
        later = &later[next.edits..];
    }
    let Ok(()) = put_kept(rest, &mut now) else {
        return Err(KeepFault::Memory);
    };
    Ok(Relisted { leaves: now, gone })
}
