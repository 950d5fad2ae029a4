//! Stores that are loaded: whole ones, damaged ones, and those of which a call of the disk fails.

use crate::stores::{has_top, heap_of, keys_of, site_of, value_length};
use ct_base::Memory;
use ct_site::MemSite;
use pg_journal::LoadFault;
use pg_page::Page;
use std::alloc::Global;
use std::test::Fail;

/// A page behind the root.
enum Behind {
    Free,
    /// A slotted page of these strings.
    Strings(&'static [&'static [u8]]),
    /// A long page that names the next one, and how many bytes it has, each an `x`.
    Long(u8, u16),
    /// A leaf of the directory: the page and the slot of each entry.
    Leaf(&'static [(u8, u8)]),
    /// A page of the directory on this level: its children, and where the least entry below each stands.
    Inner(u8, &'static [(u8, u8, u8)]),
    /// A page of no kind.
    Odd,
}

/// What comes of a load.
#[derive(Clone, Copy, Debug, PartialEq, Eq)]
enum Loaded {
    /// A store, which is as before.
    Same,
    /// A store that has got a directory.
    Directed,
    /// None, and the file is as before.
    NoStore,
    Disk,
    Memory,
    Other,
}

/// A key of one byte, and a value of 5000 bytes that begins on page 4.
const FAR: &[u8] = b"\x01\0\x01k\0\0\x13\x88\0\0\0\x04";

/// Pages without a directory.
const STORES: &[(&[Behind], Loaded)] = &[
    (&[], Loaded::Same),
    (&[Behind::Free, Behind::Free], Loaded::Same),
    (
        &[
            Behind::Free,
            Behind::Strings(&[b"\0\0\x01kv", b"\0\0\x01lv"]),
        ],
        Loaded::Directed,
    ),
    (
        &[
            Behind::Strings(&[FAR]),
            Behind::Long(5, 4088),
            Behind::Long(0, 912),
        ],
        Loaded::Directed,
    ),
    (&[Behind::Odd], Loaded::NoStore),
    (
        &[
            Behind::Strings(&[b"\0\0\x01kv"]),
            Behind::Strings(&[b"\0\0\x01kw"]),
        ],
        Loaded::NoStore,
    ),
    (&[Behind::Strings(&[b"\0\0\x09kv"])], Loaded::NoStore),
    (&[Behind::Strings(&[b"\x02\0\x01kv"])], Loaded::NoStore),
    (
        &[Behind::Strings(&[FAR]), Behind::Long(0, 4088)],
        Loaded::NoStore,
    ),
    (
        &[Behind::Strings(&[FAR]), Behind::Long(4, 4088)],
        Loaded::NoStore,
    ),
    (
        &[
            Behind::Strings(&[FAR]),
            Behind::Long(5, 4088),
            Behind::Long(0, 913),
        ],
        Loaded::NoStore,
    ),
    (
        &[
            Behind::Strings(&[FAR]),
            Behind::Long(5, 4087),
            Behind::Long(0, 913),
        ],
        Loaded::NoStore,
    ),
    (
        &[
            Behind::Strings(&[FAR]),
            Behind::Long(9, 4088),
            Behind::Long(0, 912),
        ],
        Loaded::NoStore,
    ),
    (&[Behind::Free, Behind::Long(0, 1)], Loaded::NoStore),
];

/// Two entries.
const TWO: Behind = Behind::Strings(&[b"\0\0\x01kv", b"\0\0\x01lv"]);

/// Pages with a directory, and its top.
const DIRECTED: &[(&[Behind], u8, Loaded)] = &[
    (&[TWO, Behind::Leaf(&[(3, 0), (3, 1)])], 4, Loaded::Same),
    (
        &[
            Behind::Leaf(&[(5, 1)]),
            Behind::Inner(1, &[(6, 5, 0), (3, 5, 1)]),
            TWO,
            Behind::Leaf(&[(5, 0)]),
            Behind::Free,
        ],
        4,
        Loaded::Same,
    ),
    (
        &[
            TWO,
            Behind::Inner(1, &[(6, 3, 0)]),
            Behind::Inner(2, &[(4, 3, 0)]),
            Behind::Leaf(&[(3, 0), (3, 1)]),
        ],
        5,
        Loaded::Same,
    ),
    // the root names none, or a page that isn't the top
    (&[TWO, Behind::Leaf(&[(3, 0), (3, 1)])], 0, Loaded::NoStore),
    (&[TWO, Behind::Leaf(&[(3, 0), (3, 1)])], 3, Loaded::NoStore),
    (&[TWO, Behind::Leaf(&[(3, 0), (3, 1)])], 5, Loaded::NoStore),
    (&[TWO], 4, Loaded::NoStore),
    (&[Behind::Free], 3, Loaded::NoStore),
    (
        &[
            TWO,
            Behind::Inner(1, &[(5, 3, 0)]),
            Behind::Leaf(&[(3, 0), (3, 1)]),
        ],
        5,
        Loaded::NoStore,
    ),
    // an entry that isn't named, one that is named twice, one that isn't there, and two in another order
    (&[TWO, Behind::Leaf(&[(3, 0)])], 4, Loaded::NoStore),
    (&[TWO, Behind::Leaf(&[])], 4, Loaded::NoStore),
    (&[TWO, Behind::Leaf(&[(3, 0), (3, 0)])], 4, Loaded::NoStore),
    (
        &[TWO, Behind::Leaf(&[(3, 0), (3, 1), (3, 1)])],
        4,
        Loaded::NoStore,
    ),
    (
        &[TWO, Behind::Leaf(&[(3, 0), (3, 1), (3, 2)])],
        4,
        Loaded::NoStore,
    ),
    (&[TWO, Behind::Leaf(&[(3, 0), (4, 0)])], 4, Loaded::NoStore),
    (&[TWO, Behind::Leaf(&[(3, 1), (3, 0)])], 4, Loaded::NoStore),
    // a leaf beside the tree, and one that stands in it twice
    (
        &[
            TWO,
            Behind::Leaf(&[(3, 0), (3, 1)]),
            Behind::Leaf(&[(3, 0), (3, 1)]),
        ],
        4,
        Loaded::NoStore,
    ),
    (
        &[
            TWO,
            Behind::Leaf(&[(3, 0), (3, 1)]),
            Behind::Inner(1, &[(4, 3, 0), (4, 3, 0)]),
        ],
        5,
        Loaded::NoStore,
    ),
    // a child that isn't one: the page itself, a slotted page, one past the home pages
    (
        &[
            TWO,
            Behind::Leaf(&[(3, 0), (3, 1)]),
            Behind::Inner(1, &[(5, 3, 0)]),
        ],
        5,
        Loaded::NoStore,
    ),
    (
        &[
            TWO,
            Behind::Leaf(&[(3, 0), (3, 1)]),
            Behind::Inner(1, &[(3, 3, 0)]),
        ],
        5,
        Loaded::NoStore,
    ),
    (
        &[
            TWO,
            Behind::Leaf(&[(3, 0), (3, 1)]),
            Behind::Inner(1, &[(6, 3, 0)]),
        ],
        5,
        Loaded::NoStore,
    ),
    // another level, another least entry, children in another order
    (
        &[
            TWO,
            Behind::Leaf(&[(3, 0), (3, 1)]),
            Behind::Inner(2, &[(4, 3, 0)]),
        ],
        5,
        Loaded::NoStore,
    ),
    (
        &[
            TWO,
            Behind::Leaf(&[(3, 0), (3, 1)]),
            Behind::Inner(1, &[(4, 3, 1)]),
        ],
        5,
        Loaded::NoStore,
    ),
    (
        &[
            TWO,
            Behind::Leaf(&[(3, 0)]),
            Behind::Leaf(&[(3, 1)]),
            Behind::Inner(1, &[(5, 3, 1), (4, 3, 0)]),
        ],
        6,
        Loaded::NoStore,
    ),
];

fn slotted_page(strings: &[&[u8]]) -> [u8; 4096] {
    let mut page = Page::empty();
    for string in strings {
        let _ = page.put(string);
    }
    *page.bytes()
}

fn long_page(next: u8, count: u16) -> [u8; 4096] {
    let mut page = [0; 4096];
    let [a, b] = count.to_be_bytes();
    page[0] = 2;
    page[4] = next;
    page[5] = a;
    page[6] = b;
    for byte in page[8..].iter_mut().take(count as usize) {
        *byte = b'x';
    }
    page
}

fn leaf_page(entries: &[(u8, u8)]) -> [u8; 4096] {
    let mut page = [0; 4096];
    page[0] = 3;
    page[3] = entries.len().min(255) as u8;
    for (number, (entry, slot)) in entries.iter().take(255).enumerate() {
        page[6 * number + 11] = *entry;
        page[6 * number + 13] = *slot;
    }
    page
}

fn inner_page(level: u8, children: &[(u8, u8, u8)]) -> [u8; 4096] {
    let mut page = [0; 4096];
    page[0] = 3;
    page[1] = level;
    page[3] = children.len().min(255) as u8;
    for (number, (child, entry, slot)) in children.iter().take(255).enumerate() {
        page[10 * number + 11] = *child;
        page[10 * number + 15] = *entry;
        page[10 * number + 17] = *slot;
    }
    page
}

fn bytes_of(page: &Behind) -> [u8; 4096] {
    match page {
        Behind::Free => [0; 4096],
        Behind::Strings(strings) => slotted_page(strings),
        Behind::Long(next, count) => long_page(*next, *count),
        Behind::Leaf(entries) => leaf_page(entries),
        Behind::Inner(level, children) => inner_page(*level, children),
        Behind::Odd => [5; 4096],
    }
}

fn image_of(alloc: Global, pages: &[Behind], top: u8) -> Result<Vec<u8>, Memory> {
    let mut image = Vec::new(alloc);
    image.resize(12288, 0)?;
    image[0] = 1;
    image[1..9].copy_from_slice(b"CTXSTORE");
    image[8192] = 4;
    image[8199] = pages.len().min(100) as u8 + 3;
    image[8203] = top;
    for page in pages {
        image.extend_from_slice(&bytes_of(page))?;
    }
    Ok(image)
}

/// What comes of loading the store of this image.
fn load(alloc: Global, site: &mut MemSite, image: &[u8]) -> Loaded {
    let found = match heap_of(alloc, site) {
        Ok(_) => Ok(()),
        Err(fault) => Err(fault),
    };
    match (found, site.image() == image) {
        (Ok(()), true) => Loaded::Same,
        (Ok(()), false) if !has_top(image) && has_top(site.image()) => Loaded::Directed,
        (Err(LoadFault::NotAStore), true) => Loaded::NoStore,
        (Err(LoadFault::Disk), _) => Loaded::Disk,
        (Err(LoadFault::Memory), _) => Loaded::Memory,
        _ => Loaded::Other,
    }
}

/// What comes of loading an image on a disk of which this call fails.
fn load_image(alloc: Global, image: &[u8], call: u64) -> Result<Loaded, Memory> {
    let mut site = site_of(alloc, image, call)?;
    Ok(load(alloc, &mut site, image))
}

fn load_pages(alloc: Global, pages: &[Behind], top: u8) -> Result<Loaded, Memory> {
    let image = image_of(alloc, pages, top)?;
    load_image(alloc, &image, 0)
}

#[test]
fn pages_that_hold_no_map_are_no_store(rt: HostRuntime) -> Result<(), Fail> {
    for (number, (pages, loaded)) in STORES.iter().enumerate() {
        assert!(rt; load_pages(rt.alloc(), pages, 0)? == *loaded, "{number}");
    }
    Ok(())
}

#[test]
fn a_directory_names_each_entry_in_order(rt: HostRuntime) -> Result<(), Fail> {
    for (number, (pages, top, loaded)) in DIRECTED.iter().enumerate() {
        assert!(rt; load_pages(rt.alloc(), pages, *top)? == *loaded, "{number}");
    }
    Ok(())
}

/// A store of one entry with a directory of one page: bytes of its five pages, and where they stand.
const ONE: &[(usize, &[u8])] = &[
    (0, b"\x01CTXSTORE"),
    (8192, b"\x04\0\0\0\0\0\0\x05\0\0\0\x04"),
    (12288, b"\x01\0\0\x01\x0f\xf3\0\0\x0f\xf3\0\x0d"),
    (16371, b"\0\0\x03\x01\x01t\x01\x02id\x01\0\0"),
    (16384, b"\x03\0\0\x01\0\0\0\0\0\0\0\x03\0\0"),
];

fn put_at(image: &mut [u8], at: usize, bytes: &[u8]) {
    for (number, byte) in bytes.iter().enumerate() {
        if let Some(place) = image.get_mut(at.saturating_add(number)) {
            *place = *byte;
        }
    }
}

/// That store, where some bytes are others.
fn one_with(alloc: Global, others: &[(usize, u8)]) -> Result<Vec<u8>, Memory> {
    let mut image = Vec::from_elem(alloc, 0u8, 20480)?;
    for (at, bytes) in ONE {
        put_at(&mut image, *at, bytes);
    }
    for (at, byte) in others {
        put_at(&mut image, *at, &[*byte]);
    }
    Ok(image)
}

/// Other bytes, and what comes of a load.
const VARIANTS: &[(&[(usize, u8)], Loaded)] = &[
    (&[], Loaded::Same),
    // a slot that isn't there
    (&[(16397, 1)], Loaded::NoStore),
    // no top, and a directory; no top and no directory
    (&[(8203, 0)], Loaded::NoStore),
    (&[(8203, 0), (8199, 4)], Loaded::Directed),
    // the top isn't a home page, or not one of the directory
    (&[(8199, 4)], Loaded::NoStore),
    (&[(8203, 3)], Loaded::NoStore),
    (&[(8203, 2)], Loaded::NoStore),
    (&[(8200, 1)], Loaded::NoStore),
    // another byte of the root; more home pages than the file has
    (&[(8204, 1)], Loaded::NoStore),
    (&[(8199, 6)], Loaded::NoStore),
    // the kind, the level and the count of the leaf
    (&[(16384, 0)], Loaded::NoStore),
    (&[(16384, 1)], Loaded::NoStore),
    (&[(16384, 2)], Loaded::NoStore),
    (&[(16384, 4)], Loaded::NoStore),
    (&[(16385, 1)], Loaded::NoStore),
    (&[(16387, 0)], Loaded::NoStore),
    (&[(16387, 2)], Loaded::NoStore),
    (&[(16386, 1)], Loaded::NoStore),
    // bytes that are to be 0, before its items and behind them
    (&[(16388, 1)], Loaded::NoStore),
    (&[(16391, 1)], Loaded::NoStore),
    (&[(16398, 1)], Loaded::NoStore),
    (&[(20479, 1)], Loaded::NoStore),
    // an entry on another page
    (&[(16395, 2)], Loaded::NoStore),
    (&[(16395, 4)], Loaded::NoStore),
    (&[(16395, 5)], Loaded::NoStore),
    (&[(16392, 1)], Loaded::NoStore),
    // a free page in place of the entry's
    (&[(12288, 0)], Loaded::NoStore),
];

/// What comes of loading it, and how long the value of its key is then, which is read from a heap that is loaded again.
fn load_one(alloc: Global, others: &[(usize, u8)]) -> Result<(Loaded, Option<usize>), Memory> {
    let image = one_with(alloc, others)?;
    let mut site = site_of(alloc, &image, 0)?;
    let loaded = load(alloc, &mut site, &image);
    Ok((loaded, value_length(alloc, &mut site, b"\x01\x01t")))
}

fn wanted_length(loaded: Loaded) -> Option<usize> {
    match loaded {
        Loaded::Same | Loaded::Directed => Some(7),
        _ => None,
    }
}

#[test]
fn each_byte_of_a_directory_counts(rt: HostRuntime) -> Result<(), Fail> {
    for (number, (others, loaded)) in VARIANTS.iter().enumerate() {
        let wanted = (*loaded, wanted_length(*loaded));
        assert!(rt; load_one(rt.alloc(), others)? == wanted, "{number}");
    }
    Ok(())
}

/// Four pages without a directory.
const FOUR: &[Behind] = &[
    Behind::Free,
    Behind::Long(0, 912),
    Behind::Strings(&[b"\0\0\x02ab", b"\x01\0\x01k\0\0\x13\x88\0\0\0\x06"]),
    Behind::Long(4, 4088),
];

/// The same with a directory.
const FIVE: &[Behind] = &[
    Behind::Free,
    Behind::Long(0, 912),
    Behind::Strings(&[b"\0\0\x02ab", b"\x01\0\x01k\0\0\x13\x88\0\0\0\x06"]),
    Behind::Long(4, 4088),
    Behind::Leaf(&[(5, 0), (5, 1)]),
];

/// How long the value of a key is in a store, and in the same store when it is loaded once more.
fn look_up_twice(
    alloc: Global,
    pages: &[Behind],
    top: u8,
    key: &[u8],
) -> Result<[Option<usize>; 2], Memory> {
    let image = image_of(alloc, pages, top)?;
    let mut site = site_of(alloc, &image, 0)?;
    let first = value_length(alloc, &mut site, key);
    Ok([first, value_length(alloc, &mut site, key)])
}

const VALUES: &[(&[u8], Option<usize>)] = &[(b"k", Some(5000)), (b"ab", Some(0)), (b"a", None)];

/// A directory is made at the first load of a store without one.
#[test]
fn a_store_is_loaded(rt: HostRuntime) -> Result<(), Fail> {
    for (key, length) in VALUES {
        assert!(rt; look_up_twice(rt.alloc(), FOUR, 0, key)? == [*length, *length]);
    }
    Ok(())
}

#[test]
fn a_store_with_a_directory_is_loaded(rt: HostRuntime) -> Result<(), Fail> {
    for (key, length) in VALUES {
        assert!(rt; look_up_twice(rt.alloc(), FIVE, 7, key)? == [*length, *length]);
    }
    Ok(())
}

/// The keys of a store in order, with a blank behind each, at the first load and at the second.
fn keys_twice(alloc: Global, pages: &[Behind], top: u8) -> Result<[Vec<u8>; 2], Memory> {
    let image = image_of(alloc, pages, top)?;
    let mut site = site_of(alloc, &image, 0)?;
    let first = keys_of(alloc, &mut site)?;
    Ok([first, keys_of(alloc, &mut site)?])
}

const KEYS: &[(&[Behind], u8, &str)] = &[
    (&[], 0, ""),
    (FOUR, 0, "ab k "),
    (FIVE, 7, "ab k "),
    (
        &[
            Behind::Leaf(&[(5, 1)]),
            Behind::Inner(1, &[(6, 5, 0), (3, 5, 1)]),
            TWO,
            Behind::Leaf(&[(5, 0)]),
        ],
        4,
        "k l ",
    ),
];

fn has_keys(alloc: Global, row: &(&[Behind], u8, &str)) -> Result<bool, Memory> {
    let (pages, top, keys) = *row;
    let [first, second] = keys_twice(alloc, pages, top)?;
    Ok(first.as_slice() == keys.as_bytes() && second.as_slice() == keys.as_bytes())
}

#[test]
fn the_keys_of_a_store(rt: HostRuntime) -> Result<(), Fail> {
    for row in KEYS {
        assert!(rt; has_keys(rt.alloc(), row)?, "{}", row.2);
    }
    Ok(())
}

/// The first call of the disk that fails and isn't told.
fn untold(alloc: Global, pages: &[Behind], top: u8) -> Result<Option<u64>, Memory> {
    let image = image_of(alloc, pages, top)?;
    for call in 1..101 {
        if load_image(alloc, &image, call)? != Loaded::Disk {
            return Ok(Some(call));
        }
    }
    Ok(None)
}

/// Pages, the top of their directory, and how many calls of the disk a load makes. Of both it makes a sync, six looks at the length, the mark,
/// the gate and the root, and a read of each page; then one of each page that a look-up needs: with a directory its leaf, the page of both
/// entries, and two long pages. Without one the last three, and thirteen calls commit the root and a leaf in the place of the free page.
const CALLS: &[(&[Behind], u8, u64)] = &[(FIVE, 7, 16), (FOUR, 0, 27)];

#[test]
fn each_call_that_fails_is_told(rt: HostRuntime) -> Result<(), Fail> {
    for (pages, top, calls) in CALLS {
        assert_eq!(rt; untold(rt.alloc(), pages, *top)?, Some(*calls + 1));
    }
    Ok(())
}
