//! Query texts of CONTAINS and of CATSEARCH, and structured queries, each with what it gives or with its fault.
//!
//! Each file of rows is one text. A row is a line `TEXT → RESULT`, with the result as `printing.rt` writes it. In both, ⟨N X⟩
//! stands for N times the text X, and ⟨U+HHHH⟩ for the character of this number. A line that begins with `#` is a heading.

mod catalogues;
mod expanding;
mod functions;
mod operators;
mod printing;
mod structured;
mod words;

use ct_base::Memory;
use expanding::expanded;
use std::alloc::Global;
use std::test::Fail;

/// What texts are.
#[derive(Clone, Copy)]
enum Reading {
    Contains,
    Catsearch,
    Structured,
}

/// What the text gives, or its fault.
fn answer(alloc: Global, reading: Reading, text: &str) -> Result<String, Memory> {
    match reading {
        Reading::Contains => printing::answer(alloc, text),
        Reading::Catsearch => catalogues::answer(alloc, text),
        Reading::Structured => structured::answer(alloc, text),
    }
}

/// Compares what the text of a row gives with the result that the row has, and appends the row to `wrong` where they differ.
fn compare(alloc: Global, wrong: &mut String, reading: Reading, row: &str) -> Result<(), Memory> {
    let (text, result) = row.split_once(" → ").unwrap_or((row, "a row has an arrow"));
    let text = expanded(alloc, text)?;
    let wanted = expanded(alloc, result)?;
    let found = answer(alloc, reading, text.as_str())?;
    if found.as_str() != wanted.as_str() {
        let line = format!(in alloc; "{row}, and found {found}\n")?;
        wrong.push_str(line.as_str())?;
    }
    Ok(())
}

/// The rows whose text gives another result, each on a line. Empty lines and headings are passed over.
fn wrong_rows(alloc: Global, reading: Reading, rows: &str) -> Result<String, Memory> {
    let mut wrong = String::new(alloc);
    for line in rows.lines() {
        if !line.is_empty() && !line.starts_with('#') {
            compare(alloc, &mut wrong, reading, line)?;
        }
    }
    Ok(wrong)
}

#[test]
fn query_texts(rt: HostRuntime) -> Result<(), Fail> {
    for rows in [operators::ROWS, functions::ROWS, words::ROWS] {
        let wrong = wrong_rows(rt.alloc(), Reading::Contains, rows)?;
        assert_eq!(rt; wrong.as_str(), "");
    }
    Ok(())
}

#[test]
fn catalogue_texts(rt: HostRuntime) -> Result<(), Fail> {
    let wrong = wrong_rows(rt.alloc(), Reading::Catsearch, catalogues::ROWS)?;
    assert_eq!(rt; wrong.as_str(), "");
    Ok(())
}

#[test]
fn structured_queries(rt: HostRuntime) -> Result<(), Fail> {
    let wrong = wrong_rows(rt.alloc(), Reading::Structured, structured::ROWS)?;
    assert_eq!(rt; wrong.as_str(), "");
    Ok(())
}
