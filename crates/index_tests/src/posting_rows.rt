//! Bytes worked out by hand.

use ct_base::{Listed, Memory, Pair};
use ix_posting::{Row, RowDocument, RowFault};
use std::alloc::Global;
use std::test::Fail;

/// Each document of a row with its positions, and the row's bytes.
pub(crate) static ROWS: [(&[(u32, &[u32])], &[u8]); 5] = [
    (&[(1, &[1, 3])], &[1, 1, 2, 1, 2]),
    (&[(300, &[1, 200])], &[1, 0xac, 2, 2, 1, 0xc7, 1]),
    (&[(1, &[1]), (2, &[1])], &[2, 1, 1, 1, 1, 1, 1]),
    (&[(7, &[5]), (9, &[2, 3])], &[2, 7, 1, 5, 2, 2, 2, 1]),
    (
        &[(0xffff_ffff, &[0xffff_ffff])],
        &[
            1, 0xff, 0xff, 0xff, 0xff, 0x0f, 1, 0xff, 0xff, 0xff, 0xff, 0x0f,
        ],
    ),
];

static NO_ROWS: [&[u8]; 16] = [
    &[],
    &[0],
    &[1],
    &[0x81, 0, 1, 1, 1],
    &[1, 0x81, 0, 1, 1],
    &[1, 1, 2, 1, 2, 0],
    &[1, 0, 1, 1],
    &[1, 1, 0],
    &[1, 1, 1, 0],
    &[1, 1, 2, 1, 0],
    &[1, 1, 2, 1],
    &[2, 1, 1, 1],
    &[2, 1, 1, 1, 0, 1, 1],
    &[2, 0xff, 0xff, 0xff, 0xff, 0x0f, 1, 1, 1, 1, 1],
    &[1, 1, 2, 0xff, 0xff, 0xff, 0xff, 0x0f, 1],
    &[0xff, 0xff, 0xff, 0xff, 0x0f, 1, 1, 1],
];

fn is_document(document: &RowDocument<u32>, expected: &(u32, &[u32])) -> bool {
    document.document == expected.0 && document.places.as_slice() == expected.1
}

fn is_row(row: &Row<u32>, expected: &[(u32, &[u32])]) -> bool {
    for (document, expected) in row.documents().iter().zip(expected) {
        if !is_document(document, expected) {
            return false;
        }
    }
    row.documents().len() == expected.len()
}

/// The bytes of the row that bytes spell, where it has these documents.
fn row_again(alloc: Global, bytes: &[u8], expected: &[(u32, &[u32])]) -> Result<Vec<u8>, RowFault> {
    let row = Row::<u32>::decode(alloc, bytes)?;
    if !is_row(&row, expected) {
        return Err(RowFault::BadRow);
    }
    Ok(row.encode(alloc)?)
}

#[test]
fn rows(rt: HostRuntime) -> Result<(), Fail> {
    for (documents, bytes) in &ROWS {
        let again = row_again(rt.alloc(), bytes, documents)?;
        assert_eq!(rt; again.as_slice(), *bytes);
    }
    Ok(())
}

#[test]
fn no_rows(rt: HostRuntime) {
    for bytes in &NO_ROWS {
        assert!(rt;
            matches!(Row::<u32>::decode(rt.alloc(), bytes), Err(RowFault::BadRow)),
            "{bytes:?}"
        );
    }
}

/// Each document of a row with the firsts and lasts of its pairs, and the row's bytes.
static SPAN_ROWS: [(&[(u32, &[(u32, u32)])], &[u8]); 5] = [
    (&[(1, &[(1, 200)])], &[1, 1, 1, 1, 0xc7, 1]),
    (
        &[(7, &[(2, 5), (2, 9), (130, 130)])],
        &[1, 7, 3, 2, 3, 0, 7, 0x80, 1, 0],
    ),
    (
        &[(1, &[(1, 1)]), (300, &[(4, 6)])],
        &[2, 1, 1, 1, 0, 0xab, 2, 1, 4, 2],
    ),
    (&[(1, &[(1, 9), (2, 3)])], &[1, 1, 2, 1, 8, 1, 1]),
    (
        &[(1, &[(1, 0xffff_ffff)])],
        &[1, 1, 1, 1, 0xfe, 0xff, 0xff, 0xff, 0x0f],
    ),
];

static NO_SPAN_ROWS: [&[u8]; 16] = [
    &[],
    &[0],
    &[1],
    &[0x81, 0, 1, 1, 1, 0],
    &[1, 1, 1, 1, 0, 0],
    &[1, 0, 1, 1, 0],
    &[1, 1, 0],
    &[1, 1, 1, 0, 5],
    &[1, 1, 1, 1],
    &[1, 1, 2, 1, 0],
    &[1, 1, 2, 1, 0, 0, 0],
    &[1, 1, 2, 2, 3, 0, 1],
    &[2, 1, 1, 1, 0, 0, 1, 1, 0],
    &[1, 1, 1, 1, 0xff, 0xff, 0xff, 0xff, 0x0f],
    &[1, 1, 2, 0xff, 0xff, 0xff, 0xff, 0x0f, 0, 1, 0],
    &[0xff, 0xff, 0xff, 0xff, 0x0f, 1, 1, 1, 0],
];

fn are_pairs(pairs: &[Pair], expected: &[(u32, u32)]) -> bool {
    for (pair, (first, last)) in pairs.iter().zip(expected) {
        if pair.first != *first || pair.last != *last {
            return false;
        }
    }
    pairs.len() == expected.len()
}

fn is_span_document(document: &RowDocument<Pair>, expected: &(u32, &[(u32, u32)])) -> bool {
    document.document == expected.0 && are_pairs(document.places.as_slice(), expected.1)
}

fn is_span_row(row: &Row<Pair>, expected: &[(u32, &[(u32, u32)])]) -> bool {
    for (document, expected) in row.documents().iter().zip(expected) {
        if !is_span_document(document, expected) {
            return false;
        }
    }
    row.documents().len() == expected.len()
}

/// The bytes of the row that bytes spell, where it has these documents.
fn span_row_again(
    alloc: Global,
    bytes: &[u8],
    expected: &[(u32, &[(u32, u32)])],
) -> Result<Vec<u8>, RowFault> {
    let row = Row::<Pair>::decode(alloc, bytes)?;
    if !is_span_row(&row, expected) {
        return Err(RowFault::BadRow);
    }
    Ok(row.encode(alloc)?)
}

#[test]
fn span_rows(rt: HostRuntime) -> Result<(), Fail> {
    for (documents, bytes) in &SPAN_ROWS {
        let again = span_row_again(rt.alloc(), bytes, documents)?;
        assert_eq!(rt; again.as_slice(), *bytes);
    }
    Ok(())
}

#[test]
fn no_span_rows(rt: HostRuntime) {
    for bytes in &NO_SPAN_ROWS {
        assert!(rt;
            matches!(
                Row::<Pair>::decode(rt.alloc(), bytes),
                Err(RowFault::BadRow)
            ),
            "{bytes:?}"
        );
    }
}

/// A row of one document with two positions.
fn made_row(alloc: Global) -> Result<Vec<u8>, Memory> {
    let places = Listed::of(vec![in alloc; 1u32, 3]?);
    let documents = vec![in alloc;
        RowDocument {
            document: 1,
            places
        },
    ]?;
    Ok(Row::of(documents).encode(alloc)?)
}

#[test]
fn a_row_that_is_made(rt: HostRuntime) -> Result<(), Fail> {
    let bytes = made_row(rt.alloc())?;
    assert_eq!(rt; bytes.as_slice(), [1, 1, 2, 1, 2].as_slice());
    Ok(())
}

/// A row of one document with a pair.
fn made_span_row(alloc: Global) -> Result<Vec<u8>, Memory> {
    let places = Listed::of(vec![in alloc; Pair { first: 1, last: 3 }]?);
    let documents = vec![in alloc;
        RowDocument {
            document: 1,
            places
        },
    ]?;
    Ok(Row::of(documents).encode(alloc)?)
}

#[test]
fn a_span_row_that_is_made(rt: HostRuntime) -> Result<(), Fail> {
    let bytes = made_span_row(rt.alloc())?;
    assert_eq!(rt; bytes.as_slice(), [1, 1, 1, 1, 2].as_slice());
    Ok(())
}
