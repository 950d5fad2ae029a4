//! The bytes of the pages of a directory.

ghost use Rattle.std.specs.Prelude.{◌≡◌, ◌≤◌, ◌+◌, length};
ghost use Rattle.ct_site.specs.Images.{written};
ghost use Rattle.pg_directory.specs.Pages.{Leaf, Inner, child_bytes, directory_bytes, entry_bytes, head};

use crate::entries::{Child, EntryAt};

/// Puts bytes at a place.
pub(crate) fn put_at(page: &mut [u8; 4096], at: usize, bytes: &[u8])
    requires { at + length bytes.now ≤ 4096 }
    ensures { page.new ≡ written at bytes.now page.old }
{
    page[at..at + bytes.len()].copy_from_slice(bytes);
}

/// The first bytes of a page.
pub(crate) fn head_of(level: u8, count: u16) -> [u8; 8]
    ensures { result ≡ head level count }
{
    let [a, b] = count.to_be_bytes();
    [3, level, a, b, 0, 0, 0, 0]
}

/// The bytes of the place of an entry.
pub(crate) fn bytes_of_entry(entry: EntryAt) -> [u8; 6]
    ensures { result ≡ entry_bytes entry }
{
    let [a, b, c, d] = entry.page.to_be_bytes();
    let [e, f] = entry.slot.to_be_bytes();
    [a, b, c, d, e, f]
}

/// The bytes of a page below, and of the place of its least entry.
pub(crate) fn bytes_of_child(child: Child) -> [u8; 10]
    ensures { result ≡ child_bytes child }
{
    let [a, b, c, d] = child.page.to_be_bytes();
    let [e, f, g, h, i, j] = bytes_of_entry(child.least);
    [a, b, c, d, e, f, g, h, i, j]
}

/// The bytes of a leaf that names these entries.
pub fn leaf_page(entries: &[EntryAt]) -> [u8; 4096]
    requires { length entries.now ≤ 681 }
    ensures { result ≡ directory_bytes (Leaf entries.now) }
{
    let mut page = [0; 4096];
    put_at(&mut page, 0, &head_of(0, entries.len() as u16));
    for i in 0..entries.len() {
        put_at(&mut page, 8 + 6 * i, &bytes_of_entry(entries[i]));
    }
    page
}

/// The bytes of a page above the leaves that names these pages.
pub fn inner_page(level: u8, children: &[Child]) -> [u8; 4096]
    requires { length children.now ≤ 408 }
    ensures { result ≡ directory_bytes (Inner level children.now) }
{
    let mut page = [0; 4096];
    put_at(&mut page, 0, &head_of(level, children.len() as u16));
    for i in 0..children.len() {
        put_at(&mut page, 8 + 10 * i, &bytes_of_child(children[i]));
    }
    page
}
