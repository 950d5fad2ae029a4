//! Posting lists of one row that is decoded already.

use crate::posting_rows::ROWS;
use ct_base::Memory;
use ix_lists::Postings;
use ix_posting::{Row, RowFault};
use std::alloc::Global;
use std::test::Fail;

/// Whether this is the next document behind another, and has these positions.
fn is_next(
    alloc: Global,
    postings: &mut Postings<u32>,
    before: u32,
    expected: &(u32, &[u32]),
) -> Result<bool, Memory> {
    let first = postings.skip(before.saturating_add(1))?;
    let positions = postings.places_at(alloc, expected.0)?;
    Ok(first == Some(expected.0) && positions.as_slice() == expected.1)
}

/// Whether these are the documents of a row, one after the other.
fn are_walked(alloc: Global, row: Row<u32>, expected: &[(u32, &[u32])]) -> Result<bool, Memory> {
    let mut postings = Postings::of_row(alloc, row)?;
    let mut before = 0;
    for document in expected {
        if !is_next(alloc, &mut postings, before, document)? {
            return Ok(false);
        }
        before = document.0;
    }
    Ok(true)
}

/// The same of the row that bytes spell.
fn are_spelt(alloc: Global, bytes: &[u8], expected: &[(u32, &[u32])]) -> Result<bool, RowFault> {
    let row = Row::<u32>::decode(alloc, bytes)?;
    Ok(are_walked(alloc, row, expected)?)
}

#[test]
fn documents_of_one_row(rt: HostRuntime) -> Result<(), Fail> {
    for (documents, bytes) in &ROWS {
        assert!(rt; are_spelt(rt.alloc(), bytes, documents)?, "{bytes:?}");
    }
    Ok(())
}
