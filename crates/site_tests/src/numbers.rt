//! Bytes worked out by hand.

use ct_base::{Memory, RowKey};
use ct_bytes::{
    put_text, put_u16, put_u32, put_varint, read_row_key, read_text, read_u16, read_u32,
    read_varint, row_key_bytes, row_key_of, varint_len,
};
use std::alloc::Global;
use std::test::Fail;

const VARINTS: &[(u32, &[u8])] = &[
    (0, &[0]),
    (1, &[1]),
    (127, &[0x7f]),
    (128, &[0x80, 0x01]),
    (300, &[0xac, 0x02]),
    (16383, &[0xff, 0x7f]),
    (16384, &[0x80, 0x80, 0x01]),
    (4294967295, &[0xff, 0xff, 0xff, 0xff, 0x0f]),
];

/// Whether a number is put as these bytes, has their length, and is read from them.
fn is_varint(alloc: Global, n: u32, bytes: &[u8]) -> Result<bool, Memory> {
    let mut out = Vec::new(alloc);
    put_varint(&mut out, n)?;
    let is_read = read_varint(bytes, 0) == Some((n, bytes.len()));
    Ok(is_read && out.as_slice() == bytes && varint_len(n) == bytes.len())
}

#[test]
fn varints(rt: HostRuntime) -> Result<(), Fail> {
    for (n, bytes) in VARINTS {
        assert!(rt; is_varint(rt.alloc(), *n, bytes)?, "of {n}");
    }
    Ok(())
}

/// Bytes, a place in them, and the number that is read there with the place behind it.
const READ: &[(&[u8], usize, Option<(u32, usize)>)] = &[
    (&[1, 2], 1, Some((2, 2))),
    (&[1, 2], 3, None),
    (&[], 0, None),
    (&[0x80], 0, None),
    (&[0x81, 0x00], 0, None),
    (&[0x80, 0x80, 0x80, 0x80, 0x10], 0, None),
    (&[0x80, 0x80, 0x80, 0x80, 0x80, 0x01], 0, None),
    (&[0xff, 0xff, 0xff, 0xff, 0x1f], 0, None),
    (&[0x80, 0x80], 0, None),
];

#[test]
fn varints_at_places(rt: HostRuntime) {
    for (bytes, at, found) in READ {
        assert_eq!(rt; read_varint(bytes, *at), *found, "of {bytes:?}");
    }
}

const ROW_KEYS: &[(i64, [u8; 8])] = &[
    (i64::MIN, [0, 0, 0, 0, 0, 0, 0, 0]),
    (-1, [0x7f, 0xff, 0xff, 0xff, 0xff, 0xff, 0xff, 0xff]),
    (0, [0x80, 0, 0, 0, 0, 0, 0, 0]),
    (7, [0x80, 0, 0, 0, 0, 0, 0, 7]),
    (i64::MAX, [0xff, 0xff, 0xff, 0xff, 0xff, 0xff, 0xff, 0xff]),
];

/// Whether a key is made to these bytes, is made of them, and is read where all of them are there.
fn is_row_key(key: RowKey, bytes: [u8; 8]) -> bool {
    let is_read = read_row_key(&bytes, 0) == Some(key) && read_row_key(&bytes, 1).is_none();
    is_read && row_key_bytes(key) == bytes && row_key_of(bytes) == key
}

#[test]
fn row_keys(rt: HostRuntime) {
    for (key, bytes) in ROW_KEYS {
        assert!(rt; is_row_key(RowKey(*key), *bytes), "of {key}");
    }
}

/// A text, a number of two bytes, and one of four.
const BYTES: &[u8] = &[2, b'i', b'd', 1, 2, 3, 4, 5, 6];

fn put_each(alloc: Global) -> Result<Vec<u8>, Memory> {
    let mut out = Vec::new(alloc);
    put_text(&mut out, b"id")?;
    put_u16(&mut out, 0x0102)?;
    put_u32(&mut out, 0x03040506)?;
    Ok(out)
}

#[test]
fn texts_and_numbers_are_put(rt: HostRuntime) -> Result<(), Fail> {
    assert_eq!(rt; put_each(rt.alloc())?.as_slice(), BYTES);
    Ok(())
}

#[test]
fn texts_are_read(rt: HostRuntime) {
    assert_eq!(rt;
        (read_text(BYTES, 0), read_text(BYTES, 7)),
        (Some((b"id".as_slice(), 3)), None)
    );
}

#[test]
fn numbers_are_read(rt: HostRuntime) {
    assert_eq!(rt;
        (
            read_u16(BYTES, 3),
            read_u16(BYTES, 8),
            read_u32(BYTES, 5),
            read_u32(BYTES, 6)
        ),
        (Some(0x0102), None, Some(0x03040506), None)
    );
}
