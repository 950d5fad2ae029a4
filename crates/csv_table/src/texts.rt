//! The fields of a record as texts that a script can hold.

ghost use Rattle.std.specs.Prelude.{◌≡◌, ◌<◌, ◌⊎◌, false, length, IfErr, IfOk, IsUtf8, OnOk, is_none, is_some};
ghost use Rattle.std.specs.List.{AllByRecursion};
ghost use Rattle.ct_base.specs.Limits.{text_limit};
ghost use Rattle.csv.specs.Records.{fields_of};
ghost use Rattle.st_cut.specs.Cut.{first_statement, is_blank_byte, line_end};
ghost use Rattle.csv_table.specs.declared.refusals.Refusal.TheVariants.{CutText, NotUtf8, TooLong, Memory as OutOfMemory};
ghost use Rattle.csv_table.specs.Faults.{HeldFault, Utf8Fault};
ghost use Rattle.csv_table.specs.Steps.{end_at};
ghost use Rattle.csv_table.specs.Tables.{IsField};

use crate::refusals::Refusal;
use csv::ByteRecord;
use ct_base::{TEXT_LIMIT, Text};
use std::alloc::Global;
use std::str::from_utf8;

fn is_blank(byte: u8) -> bool
    ensures { result ≡ is_blank_byte byte }
{
    byte == b' ' || byte == b'\t' || byte == b'\r'
}

/// Whether only blanks follow, up to a newline.
fn ends_line(bytes: &[u8]) -> bool
    ensures { result ≡ is_some (line_end false bytes.now) }
{
    let mut rest = bytes;
    'bytes: while let [byte, after @ ..] = rest {
        if *byte == b'\n' {
            return true;
        }
        if !is_blank(*byte) {
            return false;
        }
        rest = after;
    }
    false
}

/// Whether a statement would end with this byte, which the others follow.
fn ends_here(byte: u8, after: &[u8]) -> bool
    ensures { result ≡ is_some (end_at byte after.now) }
{
    byte == b';' && ends_line(after)
}

/// Whether a script that has this text isn't cut within it. Its cost is the length of the text.
#[tactic(auto, using(crate::proofs::TableSteps::no_end_here, crate::proofs::TableSteps::end_here))]
fn is_uncut(bytes: &[u8]) -> bool
    ensures { result ≡ is_none (first_statement false bytes.now) }
{
    let mut rest = bytes;
    'bytes: while let [byte, after @ ..] = rest {
        if ends_here(*byte, after) {
            return false;
        }
        rest = after;
    }
    true
}

/// Refuses a text that is too long, or that a script can't hold.
#[tactic(auto, using(crate::proofs::TableSteps::field_is))]
fn check_text(text: &str, line: u64, field: usize) -> Result<(), Refusal>
    ensures field { OnOk result (IsField text.now) }
    ensures cause { IfErr result (λ e. ((e ≡ TooLong line field) × (text_limit < length text.now))
        ⊎ ((e ≡ CutText line field) × (is_none (first_statement false text.now) ≡ false))) }
{
    if text.len() > usize::from(TEXT_LIMIT) {
        return Err(Refusal::TooLong { line, field });
    }
    if !is_uncut(text.as_bytes()) {
        return Err(Refusal::CutText { line, field });
    }
    Ok(())
}

/// Refuses the first of the texts that is too long, or that a script can't hold.
pub(crate) fn check_texts(texts: &[Text], line: u64) -> Result<(), Refusal>
    ensures fields { OnOk result (AllByRecursion IsField texts.now) }
    ensures cause { IfErr result (λ e. HeldFault texts.now e) }
{
    let mut rest = texts;
    'texts: while let [text, after @ ..] = rest {
        check_text(text.as_str(), line, texts.len() - rest.len() + 1)?;
        rest = after;
    }
    Ok(())
}

/// The text of a field.
fn text_of(alloc: Global, bytes: &[u8], line: u64, field: usize) -> Result<Text, Refusal>
    ensures text { IfOk result (λ text. text ≡ bytes.now) }
    ensures cause { IfErr result (λ e. (e ≡ OutOfMemory) ⊎ ((e ≡ NotUtf8 line field) × ¬ (IsUtf8 bytes.now))) }
{
    match from_utf8(bytes) {
        Ok(text) => Ok(Text::of(alloc, text)?),
        Err(_) => Err(Refusal::NotUtf8 { line, field }),
    }
}

/// The fields of a record, which begins on this line.
#[tactic(auto, using(crate::proofs::TableSteps::next_field, crate::proofs::TableSteps::fields_on, crate::proofs::TableSteps::fields_end))]
pub(crate) fn texts_of(alloc: Global, record: &ByteRecord, line: u64) -> Result<Vec<Text>, Refusal>
    ensures texts { IfOk result (λ texts. texts.items ≡ fields_of record.now) }
    ensures cause { IfErr result (λ e. Utf8Fault (fields_of record.now) e) }
{
    let mut texts = Vec::new(alloc);
    'fields: while let Some(bytes) = record.get(texts.len()) {
        let text = text_of(alloc, bytes, line, texts.len() + 1)?;
        texts.push(text)?;
    }
    Ok(texts)
}

/// The line on which a record begins, counted from 1.
pub(crate) fn line_of(record: &ByteRecord) -> u64 {
    match record.position() {
        Some(position) => position.line(),
        None => 0,
    }
}
