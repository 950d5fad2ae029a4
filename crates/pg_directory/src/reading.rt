//! What a page of a directory says, read from its bytes.

ghost use Rattle.std.specs.Prelude.{◌≡◌, ◌≤◌, ◌<◌, ◌+◌, ◌^◌, ℕ, List, length, get_or};
ghost use Rattle.pg_journal.specs.Pages.{number_in};
ghost use Rattle.pg_page.specs.Pages.{number_at};
ghost use Rattle.pg_directory.specs.Pages.{DirectoryPage, Inner, directory_bytes, entry_in, level_of, named, no_child, no_entry, IsDirectoryPage};
ghost use Rattle.pg_directory.specs.Telling.{child_in};
ghost use Rattle.pg_directory.specs.declared.entries.Child.{Child as ChildItem};

use crate::entries::{Child, EntryAt};

/// How far a page is above the leaves: 0 for a leaf.
#[tactic(auto, using(crate::specs::laws::Pages::level_read))]
pub fn level_in(page: &[u8; 4096]) -> u8
    ensures { (d : DirectoryPage) → IsDirectoryPage d → page.now ≡ directory_bytes d → result ≡ level_of d }
{
    page[1]
}

/// How many items a page has.
pub fn count_in(page: &[u8; 4096]) -> usize
    ensures count { (d : DirectoryPage) → IsDirectoryPage d → page.now ≡ directory_bytes d → result ≡ length (named d) }
    ensures small { result < 2 ^ 16 }
{
    short_number(page, 2) as usize
}

/// The number of the two bytes at a place.
pub(crate) fn short_number(page: &[u8; 4096], at: usize) -> u16
    requires { at + 2 ≤ 4096 }
    ensures { result ≡ number_at page.now at }
{
    u16::from_be_bytes([page[at], page[at + 1]])
}

/// The number of the four bytes at a place.
pub(crate) fn long_number(page: &[u8; 4096], at: usize) -> u32
    requires { at + 4 ≤ 4096 }
    ensures { result ≡ number_in page.now at }
{
    let mut bytes = [0; 4];
    bytes.copy_from_slice(&page[at..at + 4]);
    u32::from_be_bytes(bytes)
}

/// The place of an entry of which the six bytes stand here; where they don't lie on the page, the place of no entry.
pub(crate) fn entry_at(page: &[u8; 4096], at: usize) -> EntryAt
    requires { at < 2 ^ 32 }
    ensures { at + 6 ≤ 4096 → result ≡ entry_in page.now at }
{
    if at + 6 > 4096 {
        return EntryAt { page: 0, slot: 0 };
    }
    EntryAt {
        page: long_number(page, at),
        slot: short_number(page, at + 4),
    }
}

/// Where the entry stands that a page names under a number: an entry, or the least one below a page.
pub fn named_at(page: &[u8; 4096], number: usize) -> EntryAt
    requires { number < 2 ^ 16 }
    ensures { (d : DirectoryPage) → IsDirectoryPage d → page.now ≡ directory_bytes d → number < length (named d) → result ≡ get_or (named d) number no_entry }
{
    if page[1] == 0 {
        entry_at(page, 8 + 6 * number)
    } else {
        entry_at(page, 12 + 10 * number)
    }
}

/// The page below that a page names under a number, with the place of the least entry below it; where they don't lie on the page, no page.
pub(crate) fn child_item(page: &[u8; 4096], number: usize) -> Child
    requires { number < 2 ^ 16 }
    ensures { number < 408 → result ≡ child_in page.now number }
{
    let at = 8 + 10 * number;
    if at + 10 > 4096 {
        return Child {
            page: 0,
            least: EntryAt { page: 0, slot: 0 },
        };
    }
    Child {
        page: long_number(page, at),
        least: entry_at(page, at + 4),
    }
}

/// The page below that a page names under a number.
pub fn child_at(page: &[u8; 4096], number: usize) -> u32
    requires { number < 2 ^ 16 }
    ensures { (level : ℕ) (cs : List ChildItem) → IsDirectoryPage (Inner level cs) → page.now ≡ directory_bytes (Inner level cs) → number < length cs → result ≡ (get_or cs number no_child).page }
{
    let at = 8 + 10 * number;
    if at + 4 > 4096 {
        return 0;
    }
    long_number(page, at)
}
