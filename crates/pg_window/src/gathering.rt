//! The pages of a batch, brought into memory.

ghost use Rattle.std.specs.Prelude.{◌≡◌, ℕ, List, Err, OnOk, OnErr};
ghost use Rattle.ct_site.specs.Disks.{IsSame};
ghost use Rattle.ct_keep.specs.Content.{Content};
ghost use Rattle.pg_cache.specs.Caches.{IsCacheOf};
ghost use Rattle.pg_directory.specs.Trees.{StorePage};
ghost use Rattle.pg_directory.specs.Fetching.{ReadsDisk};
ghost use Rattle.pg_window.specs.Windows.{away_of};
ghost use Rattle.pg_window.specs.Loading.{ArePagesThere, IsStoreWindow, Loads};

use crate::loading::load_page;
use crate::sheets::Sheet;
use crate::unloading::unload_behind;
use ct_keep::KeepFault;
use ct_site::Disk;
use pg_cache::PageCache;
use pg_journal::Journal;
use std::alloc::Global;

/// The same as `load_page`, of the pages at several places, one after the other. A place behind the pages is none. After an error all is as
/// it was before the first of them.
pub fn load_pages<D: Disk>(
    alloc: Global,
    disk: &mut D,
    cache: &mut PageCache,
    journal: &Journal,
    sheets: &mut Vec<Sheet>,
    loaded: &mut Vec<usize>,
    places: &[usize],
) -> Result<(), KeepFault>
    requires { IsCacheOf (D.disk disk.old) journal.now cache.old }
    ensures cache { IsCacheOf (D.disk disk.new) journal.now cache.new }
    ensures same { IsSame (D.disk disk.old) (D.disk disk.new) }
    ensures full { result ≡ Err KeepFault.Full → ⊥ }
    ensures reads { ReadsDisk (D.disk disk.old) (D.disk disk.new) result }
    ensures window { (top : ℕ) (pages : List StorePage) (m : Content) → IsStoreWindow (D.disk disk.old) journal.now top pages m sheets.old.items
        → OnOk result (IsStoreWindow (D.disk disk.new) journal.now top pages m sheets.new.items) }
    ensures there { (top : ℕ) (pages : List StorePage) (m : Content) → IsStoreWindow (D.disk disk.old) journal.now top pages m sheets.old.items
        → OnOk result (ArePagesThere pages (away_of sheets.new.items) places.now) }
    ensures loads { OnOk result (Loads sheets.old.items sheets.new.items loaded.old.items loaded.new.items) }
    ensures back { OnErr result ((sheets.new.items ≡ sheets.old.items) × (loaded.new.items ≡ loaded.old.items)) }
{
    let count = loaded.len();
    for i in 0..places.len() {
        match load_page(alloc, disk, cache, journal, sheets, loaded, places[i]) {
            Ok(()) => {}
            Err(fault) => {
                unload_behind(sheets, loaded, count);
                return Err(fault);
            }
        }
    }
    Ok(())
}
