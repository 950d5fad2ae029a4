//! Slotted pages.

ghost use Rattle.std.specs.Prelude.{◌≡◌, ◌≤◌, ◌<◌, ◌+◌, ◌^◌, ◌↔◌, ◌++◌, ◌∷◌, [], ℕ, List, IfOk, IfSome, IsNone, OnErr, MatchOption, get_or, length};
ghost use Rattle.std.specs.Int.{to_be_bytes, w16};
ghost use Rattle.ct_site.specs.Images.{written};
ghost use Rattle.pg_page.specs.Pages.{Fits, free, number_at, page_bytes, string_at};

use std::marker::Model;
use thiserror::Error;

/// The number of a string on its page: 0 for the one that was put first.
#[derive(Clone, Copy, Debug, PartialEq, Eq)]
pub struct Slot(pub u16);

/// The bytes are none of a slotted page.
#[derive(Clone, Copy, Debug, PartialEq, Eq, Error)]
#[error("not a slotted page")]
pub struct NotAPage;

/// How many bytes a page has, its head, and a slot.
const PAGE: usize = 4096;

const HEAD: usize = 8;

const SLOT: usize = 4;

/// A page of strings of bytes, seen as their list. It takes no memory.
#[derive(Debug, Drop)]
pub struct Page {
    bytes: [u8; 4096],
    count: usize,
    low: usize,
}

impl Model for Page {
    ghost use Rattle.std.specs.Prelude.{List, ℕ};
    ghost use Rattle.pg_page.specs.Pages.{strings_in};
    ghost use Rattle.pg_page.specs.PageFields.{IsPage};

    ghost Value = { List (List ℕ) };

    ghost view = { λ p. strings_in p.bytes p.count };

    ghost invariant = { IsPage };
}

/// The number of the two bytes at a place.
fn number_at(bytes: &[u8; 4096], at: usize) -> usize
    requires { at + 2 ≤ 4096 }
    ensures { result ≡ number_at bytes.now at }
{
    u16::from_be_bytes([bytes[at], bytes[at + 1]]) as usize
}

/// Puts bytes at a place.
fn put_at(page: &mut [u8; 4096], at: usize, bytes: &[u8])
    requires { at + length bytes.now ≤ 4096 }
    ensures { page.new ≡ written at bytes.now page.old }
{
    page[at..at + bytes.len()].copy_from_slice(bytes);
}

/// Two numbers in two bytes each, the higher byte first.
fn two_numbers(first: usize, second: usize) -> [u8; 4]
    requires first { first < 2 ^ 16 }
    requires second { second < 2 ^ 16 }
    ensures { result ≡ to_be_bytes w16 first ++ to_be_bytes w16 second }
{
    let [a, b] = (first as u16).to_be_bytes();
    let [c, d] = (second as u16).to_be_bytes();
    [a, b, c, d]
}

/// The string of a number on the slotted page of these bytes, which are looked at no further.
pub fn string_in(bytes: &[u8; 4096], number: usize) -> Option<&[u8]>
    ensures string { IfSome result (λ s. s.now ≡ string_at bytes.now number) }
    ensures none { IsNone result → (ss : List (List ℕ)) → Fits ss → bytes.now ≡ page_bytes ss → number < length ss → ⊥ }
{
    if number >= (PAGE - HEAD) / SLOT {
        return None;
    }
    let place = number_at(bytes, HEAD + SLOT * number);
    let count = number_at(bytes, HEAD + SLOT * number + 2);
    if place > PAGE || count > PAGE - place {
        return None;
    }
    Some(&bytes[place..place + count])
}

impl Page {
    /// A page without strings.
    pub fn empty() -> Page
        ensures { result ≡ [] }
    {
        let mut bytes = [0; 4096];
        put_at(&mut bytes, 0, &[1, 0, 0, 0, 0x10, 0, 0, 0]);
        Page {
            bytes,
            count: 0,
            low: PAGE,
        }
    }

    /// The same page once more. It takes no memory.
    pub fn copy(&self) -> Page
        ensures { result ≡ self.now }
    {
        Page {
            bytes: self.bytes,
            count: self.count,
            low: self.low,
        }
    }

    /// The bytes of the page.
    pub fn bytes(&self) -> &[u8; 4096]
        ensures { result.now ≡ page_bytes self.now }
    {
        &self.bytes
    }

    /// How many strings it has.
    pub fn count(&self) -> usize
        ensures count { result ≡ length self.now }
        ensures fits { Fits self.now }
    {
        self.count
    }

    /// Puts a string behind the others, and gives its number. None, with the page as it was, exactly where its length and the
    /// four bytes of its slot are more than the bytes that are free.
    pub fn put(&mut self, string: &[u8]) -> Option<Slot>
        ensures none { IsNone result ↔ (free self.old < length string.now + 4) }
        ensures kept { IsNone result → self.new ≡ self.old }
        ensures put { IfSome result (λ slot. (slot.0 ≡ length self.old) × (self.new ≡ self.old ++ string.now ∷ [])) }
    {
        let slot = HEAD + SLOT * self.count;
        let free = self.low - slot;
        if free < SLOT || string.len() > free - SLOT {
            return None;
        }
        let place = self.low - string.len();
        put_at(&mut self.bytes, place, string);
        put_at(&mut self.bytes, slot, &two_numbers(place, string.len()));
        put_at(&mut self.bytes, 2, &two_numbers(self.count + 1, place));
        let number = Slot(self.count as u16);
        self.count += 1;
        self.low = place;
        Some(number)
    }

    /// The string of a number; None exactly where the page has no more strings than that.
    pub fn get(&self, slot: Slot) -> Option<&[u8]>
        ensures { MatchOption result (length self.now ≤ slot.0) (λ s. (slot.0 < length self.now) × (s.now ≡ get_or self.now slot.0 [])) }
    {
        let number = slot.0 as usize;
        if number >= self.count {
            return None;
        }
        string_in(&self.bytes, number)
    }

    /// The page of these bytes; NotAPage exactly where they are those of no slotted page.
    pub fn read(bytes: &[u8; 4096]) -> Result<Page, NotAPage>
        ensures page { IfOk result (λ page. Fits page × (bytes.now ≡ page_bytes page)) }
        ensures none { OnErr result ((ss : List (List ℕ)) → Fits ss → bytes.now ≡ page_bytes ss → ⊥) }
    {
        let mut page = Page::empty();
        for number in 0..number_at(bytes, 2) {
            let Some(string) = string_in(bytes, number) else {
                return Err(NotAPage);
            };
            if page.put(string).is_none() {
                return Err(NotAPage);
            }
        }
        if page.bytes == *bytes {
            Ok(page)
        } else {
            Err(NotAPage)
        }
    }
}
