//! Pages of a directory, told by their bytes.

ghost use Rattle.std.specs.Prelude.{◌≡◌, ◌≤◌, List, IsTrue, IsFalse, length};
ghost use Rattle.pg_directory.specs.Pages.{DirectoryPage, Leaf, Inner, directory_bytes, IsDirectoryPage};
ghost use Rattle.pg_directory.specs.Telling.{children_in, entries_in, IsTold};
ghost use Rattle.pg_directory.specs.declared.entries.Child.{Child as ChildItem};
ghost use Rattle.pg_directory.specs.declared.entries.EntryAt.{EntryAt as EntryPlace};

use crate::entries::Child;
use crate::reading::{entry_at, long_number, short_number};
use crate::writing::{bytes_of_child, bytes_of_entry, head_of, put_at};

/// The bytes of the leaf that names so many of the places that stand on a page.
fn leaf_again(page: &[u8; 4096], count: usize) -> [u8; 4096]
    requires { count ≤ 681 }
    ensures { result ≡ directory_bytes (Leaf (entries_in page.now count)) }
{
    let mut again = [0; 4096];
    put_at(&mut again, 0, &head_of(0, count as u16));
    for i in 0..count {
        let entry = entry_at(page, 8 + 6 * i);
        put_at(&mut again, 8 + 6 * i, &bytes_of_entry(entry));
    }
    again
}

/// The bytes of the page of this level that names so many of the pages that stand on a page.
fn inner_again(page: &[u8; 4096], level: u8, count: usize) -> [u8; 4096]
    requires { count ≤ 408 }
    ensures { result ≡ directory_bytes (Inner level (children_in page.now count)) }
{
    let mut again = [0; 4096];
    put_at(&mut again, 0, &head_of(level, count as u16));
    for i in 0..count {
        let child = Child {
            page: long_number(page, 8 + 10 * i),
            least: entry_at(page, 12 + 10 * i),
        };
        put_at(&mut again, 8 + 10 * i, &bytes_of_child(child));
    }
    again
}

/// Whether the bytes are those of a leaf with so many places.
pub(crate) fn is_leaf(page: &[u8; 4096], count: usize) -> bool
    requires { 1 ≤ count }
    ensures yes { IsTrue result → IsTold page.now (Leaf (entries_in page.now count)) }
    ensures no { IsFalse result → (es : List EntryPlace) → IsDirectoryPage (Leaf es) → page.now ≡ directory_bytes (Leaf es) → length es ≡ count → ⊥ }
{
    if count > 681 {
        return false;
    }
    *page == leaf_again(page, count)
}

/// Whether the bytes are those of a page of this level with so many pages below.
pub(crate) fn is_inner(page: &[u8; 4096], level: u8, count: usize) -> bool
    requires some { 1 ≤ count }
    requires level { 1 ≤ level }
    ensures yes { IsTrue result → IsTold page.now (Inner level (children_in page.now count)) }
    ensures no { IsFalse result → (cs : List ChildItem) → IsDirectoryPage (Inner level cs) → page.now ≡ directory_bytes (Inner level cs) → length cs ≡ count → ⊥ }
{
    if count > 408 {
        return false;
    }
    *page == inner_again(page, level, count)
}

/// Whether the bytes are those of a page of a directory.
pub fn is_directory(page: &[u8; 4096]) -> bool
    ensures yes { IsTrue result → (d : DirectoryPage) × IsTold page.now d }
    ensures no { IsFalse result → (d : DirectoryPage) → IsDirectoryPage d → page.now ≡ directory_bytes d → ⊥ }
{
    let level = page[1];
    let count = short_number(page, 2) as usize;
    if count == 0 {
        return false;
    }
    if level == 0 {
        return is_leaf(page, count);
    }
    is_inner(page, level, count)
}
