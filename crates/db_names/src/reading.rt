//! Heads of indexes from the keys and the values of entries.

ghost use Rattle.std.specs.Prelude.{◌≡◌, ◌↔◌, ℕ, List, IfOk, IfSome, IfNone, IsTrue, Some};
ghost use Rattle.db_names.specs.declared.heads.IndexKind.{IndexKind as Kind};
ghost use Rattle.db_names.specs.Heads.{index_code, SpellsHead};
ghost use Rattle.db_names.specs.Parts.{HasHeadParts, NameOn, PairOf};

use crate::heads::{IndexHead, IndexKind};
use ct_base::{Memory, Name};
use ct_bytes::read_text;
use ct_entry::owner_in;
use std::alloc::Global;
use tb_table::Target;

/// The kind of a byte.
fn kind_of(code: u8) -> Option<IndexKind>
    ensures some { IfSome result (λ kind. index_code kind ≡ code) }
    ensures none { IfNone result ((kind : Kind) → index_code kind ≡ code → ⊥) }
{
    match code {
        1 => Some(IndexKind::Context),
        2 => Some(IndexKind::Catalogue),
        3 => Some(IndexKind::Rules),
        _ => None,
    }
}

/// The first byte, the text after it, and the byte after that.
fn parts(value: &[u8]) -> Option<(u8, &[u8], u8)>
    ensures some { IfSome result (λ r. HasHeadParts value.now r.0 r.1.now r.2) }
    ensures none { IfNone result ((code : ℕ) (table : List ℕ) (column : ℕ) → HasHeadParts value.now code table column → ⊥) }
{
    let code = *value.first()?;
    let (table, at) = read_text(value, 1)?;
    let column = *value.get(at)?;
    Some((code, table, column))
}

/// The head that the bytes begin with; None where they begin with none.
pub(crate) fn read_head(alloc: Global, value: &[u8]) -> Result<Option<IndexHead>, Memory>
    ensures { IfOk result (λ found. SpellsHead (Some value.now) found) }
{
    let Some((code, table, column)) = parts(value) else {
        return Ok(None);
    };
    let Some(kind) = kind_of(code) else {
        return Ok(None);
    };
    let Some(table) = Name::of_bytes(alloc, table)? else {
        return Ok(None);
    };
    let target = Target { table, column };
    Ok(Some(IndexHead { kind, target }))
}

/// Whether the bytes begin with the head of an index of this kind on this target.
fn is_on(value: &[u8], target: &Target, kind: IndexKind) -> bool
    ensures { IsTrue result ↔ SpellsHead (Some value.now) (Some (record { kind = kind; target = target.now })) }
{
    let wanted = target.table.as_str();
    let Some((code, table, column)) = parts(value) else {
        return false;
    };
    code == kind.code() && table == wanted.as_bytes() && column == target.column
}

/// The name of the index that an entry is of, where it is of this kind and on this target.
pub(crate) fn name_on(
    alloc: Global,
    rest: &[u8],
    value: &[u8],
    target: &Target,
    kind: IndexKind,
) -> Result<Option<Name>, Memory>
    ensures { IfOk result (λ found. NameOn (record { kind = kind; target = target.now }) (rest.now, value.now) found) }
{
    if is_on(value, target, kind) {
        owner_in(alloc, rest)
    } else {
        Ok(None)
    }
}

/// Whether two names are one.
fn is_same(a: &Name, b: &Name) -> bool
    ensures { IsTrue result ↔ (a.now ≡ b.now) }
{
    a.as_str() == b.as_str()
}

/// The index that an entry is of, where it is on this table.
pub(crate) fn pair_of(
    alloc: Global,
    rest: &[u8],
    value: &[u8],
    table: &Name,
) -> Result<Option<(Name, IndexHead)>, Memory>
    ensures { IfOk result (λ found. PairOf table.now (rest.now, value.now) found) }
{
    let Some(index) = owner_in(alloc, rest)? else {
        return Ok(None);
    };
    let Some(head) = read_head(alloc, value)? else {
        return Ok(None);
    };
    if is_same(&head.target.table, table) {
        Ok(Some((index, head)))
    } else {
        Ok(None)
    }
}
