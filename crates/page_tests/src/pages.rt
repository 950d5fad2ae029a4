//! Pages that are filled, read back and spoilt.

use ct_base::Memory;
use pg_page::{NotAPage, Page, Slot};
use std::alloc::Global;
use std::test::Fail;

fn letters(alloc: Global, count: usize) -> Result<Vec<u8>, Memory> {
    Ok(Vec::from_elem(alloc, b'a', count)?)
}

/// What a full page answers to strings of 4085, 4084 and no bytes, and whether its first two slots are there.
fn filled(alloc: Global) -> Result<([Option<Slot>; 3], [bool; 2]), Memory> {
    let long = letters(alloc, 4085)?;
    let fitting = letters(alloc, 4084)?;
    let mut page = Page::empty();
    let slots = [page.put(&long), page.put(&fitting), page.put(b"")];
    Ok((
        slots,
        [page.get(Slot(0)).is_some(), page.get(Slot(1)).is_some()],
    ))
}

#[test]
fn a_page_is_filled_by_4084_bytes(rt: HostRuntime) -> Result<(), Fail> {
    let found = filled(rt.alloc())?;
    assert!(rt;
        found == ([None, Some(Slot(0)), None], [true, false]),
        "{found:?}"
    );
    Ok(())
}

/// The slots of three strings, and the page with them.
fn three_strings() -> ([Option<Slot>; 3], [u8; 4096]) {
    let mut page = Page::empty();
    let slots = [page.put(b"abc"), page.put(b""), page.put(b"de")];
    (slots, *page.bytes())
}

#[test]
fn strings_have_slots(rt: HostRuntime) {
    let (slots, _) = three_strings();
    assert!(rt; slots == [Some(Slot(0)), Some(Slot(1)), Some(Slot(2))]);
}

#[test]
fn a_page_has_these_bytes(rt: HostRuntime) {
    let (_, bytes) = three_strings();
    assert_eq!(rt;
        (&bytes[..8], &bytes[4091..]),
        (b"\x01\0\0\x03\x0f\xfb\0\0".as_slice(), b"deabc".as_slice())
    );
}

/// Whether these bytes are a page whose third string is `de`.
fn has_third(bytes: &[u8; 4096]) -> bool {
    match Page::read(bytes) {
        Ok(page) => page.get(Slot(2)) == Some(b"de".as_slice()),
        Err(NotAPage) => false,
    }
}

#[test]
fn a_page_is_read_back(rt: HostRuntime) {
    let (_, bytes) = three_strings();
    assert!(rt; has_third(&bytes));
}

#[test]
fn a_spoilt_page_is_none(rt: HostRuntime) {
    let (_, mut bytes) = three_strings();
    bytes[100] = 1;
    assert!(rt; matches!(Page::read(&bytes), Err(NotAPage)));
}
