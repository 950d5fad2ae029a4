//! The strings of slotted pages.

ghost use Rattle.std.specs.Prelude.{◌≡◌, ◌≢◌, ◌<◌, Some, None, IfSome, IsNone, IsTrue, IsFalse, length, set};
ghost use Rattle.pg_page.specs.Pages.{Fits};
ghost use Rattle.pg_map.specs.Kinds.{StringItem, IsStringItem, item_bytes};
ghost use Rattle.pg_map.specs.Kinds.{key_in_item};
ghost use Rattle.pg_map.specs.PageStrings.{string_key, IsKeyAt};
ghost use Rattle.pg_plan.specs.Slots.{without_at, HasNoKey};

use pg_map::key_in;
use pg_page::{Page, Slot};

/// Which string of a page comes next, where the last one takes the place of one that goes.
fn source(number: usize, slot: usize, last: usize) -> usize
    ensures here { number ≡ slot → result ≡ last }
    ensures other { number ≢ slot → result ≡ number }
{
    if number == slot { last } else { number }
}

/// The page without the string of a number, which the last string has now.
pub(crate) fn without(page: &Page, slot: usize) -> Page
    requires { slot < length page.now }
    ensures { result ≡ without_at slot page.now }
{
    let mut rest = Page::empty();
    let last = page.count().saturating_sub(1);
    for i in 0..last {
        let Some(string) = page.get(Slot(source(i, slot, last) as u16)) else {
            return rest;
        };
        let Some(_) = rest.put(string) else {
            return rest;
        };
    }
    rest
}

/// Which string comes next, where one of a page is replaced: the new one in its slot, and else the old one.
fn chosen<'a>(number: usize, slot: usize, old: &'a [u8], string: &'a [u8]) -> &'a [u8]
    ensures here { number ≡ slot → result.now ≡ string.now }
    ensures other { number ≢ slot → result.now ≡ old.now }
{
    if number == slot { string } else { old }
}

/// The page with another string in the slot of a number; None where that has no room.
pub(crate) fn replaced(page: &Page, slot: usize, string: &[u8]) -> Option<Page>
    ensures is { IfSome result (λ rest. rest ≡ set page.now slot string.now) }
    ensures fits { IfSome result (λ rest. Fits rest) }
{
    let mut rest = Page::empty();
    for i in 0..page.count() {
        let old = page.get(Slot(i as u16))?;
        let _ = rest.put(chosen(i, slot, old, string))?;
    }
    Some(rest)
}

/// Whether a string is of an entry of a key.
fn is_of(string: &[u8], key: &[u8]) -> bool
    ensures yes { IsTrue result → string_key string.now ≡ key.now }
    ensures no { IsFalse result → (item : StringItem) → IsStringItem item → string.now ≡ item_bytes item → key_in_item item ≢ key.now }
{
    match key_in(string) {
        Some(found) => found == key,
        None => false,
    }
}

/// The number of the first string of a key.
pub(crate) fn find(page: &Page, key: &[u8]) -> Option<usize>
    ensures fits { Fits page.now }
    ensures some { IfSome result (λ i. IsKeyAt page.now i key.now) }
    ensures none { IsNone result → HasNoKey page.now key.now }
{
    for i in 0..page.count() {
        let Some(string) = page.get(Slot(i as u16)) else {
            return None;
        };
        if is_of(string, key) {
            return Some(i);
        }
    }
    None
}
