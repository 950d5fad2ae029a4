//! Refusals, and replies whose text is fixed.

ghost use Rattle.std.specs.Prelude.{◌≡◌, ◌++◌, ◌∷◌, [], codes, pos, IfOk, OnOk};
ghost use Rattle.std.specs.Fmt.{signed_decimal};
ghost use Rattle.db_cond.specs.Faults.{NotInProfile, no_rows as no_rows_text, not_understood as not_understood_text, out_of_memory as out_of_memory_text, refusal_line, statement_too_long as statement_too_long_text, store_full as store_full_text};
ghost use Rattle.db_cond.specs.Lines.{printed_text};
ghost use Rattle.db_cond.specs.Refused.{refusal_of};

use crate::lines::{push_number, push_text};
use ct_base::Memory;
use std::alloc::Global;

/// Why a statement is refused.
#[derive(Clone, Copy, Debug)]
pub enum Fault<'a> {
    /// It names something that isn't there.
    UnknownName(&'a str),
    /// What it makes is there.
    ExistsAlready(&'a str),
    /// The type, the number or the choice of its values or columns is wrong.
    WrongValues,
    /// The table has a row of its key.
    KeyExists(i64),
    /// A value is over its length.
    ValueTooLong,
    /// What stands at this place of a query text, counted from 1, breaks the grammar.
    QuerySyntax(u32),
    /// What stands at this place of a query text, counted from 1, isn't in the profile.
    NotInProfile(u32),
    /// The number at this place of a query text, counted from 1, is out of its range.
    QueryNumber(u32),
    /// The word at this place of a query text, counted from 1, is joined to another by EQUIV and isn't exactly one token.
    NotOneWord(u32),
    /// A query text names a section that the index doesn't have.
    UnknownSection(&'a str),
    /// A query text has WITHIN this field inside another WITHIN.
    FieldInside(&'a str),
    /// A query text names a thesaurus that isn't there.
    UnknownThesaurus(&'a str),
    /// A term of a query text expands to too many terms.
    TooManyTerms,
    /// A query text is too long, or has too many words and signs or too many open parentheses.
    QueryTooLarge,
    /// A number of the statement is out of its range.
    OutOfRange,
    /// The column or the index has none of the kind that is wanted.
    NoIndexOfKind,
    /// An attribute, a parameter, a value or a name is bad.
    BadValue,
    /// A limit would be passed.
    LimitReached,
    /// A structured query names this column, which no sub-index of the catalogue has.
    InNoSubIndex(&'a str),
}

/// Puts a text.
fn push_fixed(out: &mut Vec<u8>, text: &[u8]) -> Result<(), Memory>
    ensures { OnOk result (out.new.items ≡ out.old.items ++ text.now) }
{
    out.extend_from_slice(text)?;
    Ok(())
}

/// Puts a text, what is printed of a name, and a text.
fn push_named(out: &mut Vec<u8>, before: &[u8], name: &str, after: &[u8]) -> Result<(), Memory>
    ensures { OnOk result (out.new.items ≡ out.old.items ++ (before.now ++ (printed_text name.now ++ after.now))) }
{
    out.extend_from_slice(before)?;
    push_text(out, name.as_bytes())?;
    out.extend_from_slice(after)?;
    Ok(())
}

/// Puts a text, a number in decimal digits, and a text.
fn push_numbered(
    alloc: Global,
    out: &mut Vec<u8>,
    before: &[u8],
    number: i64,
    after: &[u8],
) -> Result<(), Memory>
    ensures { OnOk result (out.new.items ≡ out.old.items ++ (before.now ++ (signed_decimal number ++ after.now))) }
{
    out.extend_from_slice(before)?;
    push_number(alloc, out, number)?;
    out.extend_from_slice(after)?;
    Ok(())
}

/// Puts a text, a place of a query text, and a newline.
fn push_place(alloc: Global, out: &mut Vec<u8>, before: &[u8], place: u32) -> Result<(), Memory>
    ensures { OnOk result (out.new.items ≡ out.old.items ++ (before.now ++ (signed_decimal (pos place) ++ codes "\n"))) }
{
    push_numbered(alloc, out, before, i64::from(place), b"\n")
}

/// Puts the line of a refusal.
fn push_fault(alloc: Global, out: &mut Vec<u8>, fault: Fault<'_>) -> Result<(), Memory>
    ensures { OnOk result (out.new.items ≡ out.old.items ++ refusal_line (refusal_of fault.entry)) }
{
    match fault {
        Fault::UnknownName(name) => push_named(out, b"E11: unknown name ", name, b"\n"),
        Fault::ExistsAlready(name) => push_named(out, b"E12: ", name, b" exists already\n"),
        Fault::WrongValues => push_fixed(out, b"E13: wrong type or number of values\n"),
        Fault::KeyExists(key) => push_numbered(alloc, out, b"E14: key ", key, b" exists\n"),
        Fault::ValueTooLong => push_fixed(out, b"E16: value too long\n"),
        Fault::QuerySyntax(place) => push_place(alloc, out, b"E20: query syntax at ", place),
        Fault::NotInProfile(place) => {
            push_place(alloc, out, b"E21: operator not in profile at ", place)
        }
        Fault::QueryNumber(place) => {
            push_place(alloc, out, b"E22: number out of range at ", place)
        }
        Fault::NotOneWord(place) => push_place(alloc, out, b"E29: not one word at ", place),
        Fault::UnknownSection(name) => push_named(out, b"E23: unknown section ", name, b"\n"),
        Fault::FieldInside(name) => { push_named(out, b"E24: field ", name, b" inside WITHIN\n") }
        Fault::UnknownThesaurus(name) => push_named(out, b"E25: unknown thesaurus ", name, b"\n"),
        Fault::TooManyTerms => push_fixed(out, b"E28: too many expanded terms\n"),
        Fault::QueryTooLarge => push_fixed(out, b"E26: query too large\n"),
        Fault::OutOfRange => push_fixed(out, b"E22: number out of range\n"),
        Fault::NoIndexOfKind => push_fixed(out, b"E27: no index of that kind\n"),
        Fault::BadValue => push_fixed(out, b"E30: bad attribute or value\n"),
        Fault::LimitReached => push_fixed(out, b"E31: limit reached\n"),
        Fault::InNoSubIndex(name) => {
            push_named(out, b"E33: column ", name, b" in no sub-index\n")
        }
    }
}

/// The line of a refusal, with its newline.
pub fn fault_line(alloc: Global, fault: Fault<'_>) -> Result<Vec<u8>, Memory>
    ensures { IfOk result (λ line. line.items ≡ refusal_line (refusal_of fault.entry)) }
{
    let mut line = Vec::new(alloc);
    push_fault(alloc, &mut line, fault)?;
    Ok(line)
}

/// The reply to what is no statement. It takes no memory.
pub fn not_understood() -> &'static [u8]
    ensures { result.now ≡ not_understood_text }
{
    b"E10: statement not understood\n"
}

/// The reply to a statement with too many bytes. It takes no memory.
pub fn statement_too_long() -> &'static [u8]
    ensures { result.now ≡ statement_too_long_text }
{
    b"E19: statement too long\n"
}

/// The reply to a statement for which the store has no room. It takes no memory.
pub fn store_full() -> &'static [u8]
    ensures { result.now ≡ store_full_text }
{
    b"E80: store full\n"
}

/// The reply to a statement for which there was no memory. It takes none.
pub fn out_of_memory() -> &'static [u8]
    ensures { result.now ≡ out_of_memory_text }
{
    b"E90: out of memory\n"
}

/// The reply of a query without a line. It takes no memory.
pub fn no_rows() -> &'static [u8]
    ensures { result.now ≡ no_rows_text }
{
    b"no rows selected\n"
}
