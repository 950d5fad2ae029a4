//! The lines of the parts of a descriptor.
#![tactic(auto)]

ghost use Rattle.std.specs.Prelude.{◌≡◌, ◌++◌, false, map, IfOk, OnOk, IsPermutation};
ghost use Rattle.std.specs.List.{flat_map};
ghost use Rattle.rs_result.specs.declared.descriptors.ResultPart.TheVariants.{Hits, Group};
ghost use Rattle.rs_result.specs.Comparing.{ranked};
ghost use Rattle.rs_result.specs.Counts.{counted};
ghost use Rattle.rs_result.specs.Orders.{HaveOwnKeys};
ghost use Rattle.db_hits.specs.Descriptors.{has_bad_cut, is_bad_cut};
ghost use Rattle.db_hits.specs.Parts.{count_line, group_line, text_or_none};
ghost use Rattle.db_hits.specs.Rows.{PrintsPart, held_text, rank_line};

use crate::ordering::{index_in, order_keys, put_in_order};
use crate::rows::HitRow;
use ct_base::{Memory, Name, Value};
use db_cond::{line, no_rows};
use db_state::fixed_reply;
use rs_result::{Count, HitKey, ResultPart, between, groups};
use std::alloc::Global;

/// The most rows that are counted. A table has far fewer.
const MOST_ROWS: usize = 4_294_967_295;

/// Puts the line of a count.
fn push_count(alloc: Global, lines: &mut Vec<u8>, count: usize) -> Result<(), Memory>
    ensures { OnOk result (lines.new.items ≡ lines.old.items ++ count_line count) }
{
    let digits = format!(in alloc; "{count}")?;
    lines.extend_from_slice(b"count=")?;
    lines.extend_from_slice(digits.as_bytes())?;
    lines.push(b'\n')?;
    Ok(())
}

/// Puts the line of a hit.
fn push_hit(alloc: Global, lines: &mut Vec<u8>, row: &HitRow) -> Result<(), Memory>
    ensures { OnOk result (lines.new.items ≡ lines.old.items ++ rank_line (ranked row.now)) }
{
    lines.extend_from_slice(b"hit|")?;
    line(
        alloc,
        lines,
        &[
            Value::Number(row.key.0),
            Value::Number(i64::from(row.score)),
        ],
    )
}

/// Puts the lines of hits.
fn push_hits(alloc: Global, lines: &mut Vec<u8>, rows: &[HitRow]) -> Result<(), Memory>
    ensures { OnOk result (lines.new.items ≡ lines.old.items ++ flat_map (λ row. rank_line (ranked row)) rows.now) }
{
    let mut rest = rows;
    while let [row, later @ ..] = rest {
        push_hit(alloc, lines, row)?;
        rest = later;
    }
    Ok(())
}

/// Puts the lines of the hits from one number to another in an order.
fn push_cut(
    alloc: Global,
    lines: &mut Vec<u8>,
    names: &[Name],
    rows: &mut Vec<HitRow>,
    first: u32,
    last: u32,
    keys: &[HitKey],
) -> Result<(), Memory>
    requires { is_bad_cut (Hits first last keys.now) ≡ false }
    ensures lines { PrintsPart names.now (Hits first last keys.now) rows.old.items result lines.old.items lines.new.items }
    ensures moved { IsPermutation rows.old.items rows.new.items }
{
    let by = order_keys(alloc, names, keys)?;
    put_in_order(rows, &by);
    push_hits(alloc, lines, between(rows, first, last))
}

/// Puts the line of a value and how many hits have it.
fn push_group(alloc: Global, lines: &mut Vec<u8>, count: Count<'_>) -> Result<(), Memory>
    ensures { OnOk result (lines.new.items ≡ lines.old.items ++ group_line (counted count.entry)) }
{
    let value = count.value.clone()?;
    lines.extend_from_slice(b"group|")?;
    line(alloc, lines, &[value, Value::Number(i64::from(count.n))])
}

/// Puts the lines of counts.
fn push_counts(alloc: Global, lines: &mut Vec<u8>, counts: Vec<Count<'_>>) -> Result<(), Memory>
    ensures { OnOk result (lines.new.items ≡ lines.old.items ++ flat_map group_line (map counted counts.entry.items)) }
{
    for count in counts {
        push_group(alloc, lines, count)?;
    }
    Ok(())
}

/// Puts the lines of the values of a column, with how many hits have each.
fn push_groups(
    alloc: Global,
    lines: &mut Vec<u8>,
    names: &[Name],
    rows: &[HitRow],
    column: &Name,
) -> Result<(), Memory>
    ensures { PrintsPart names.now (Group column.now) rows.now result lines.old.items lines.new.items }
{
    if rows.len() > MOST_ROWS {
        return Err(Memory);
    }
    let counts = groups(alloc, rows, index_in(column, names))?;
    push_counts(alloc, lines, counts)
}

/// Puts the lines of a part.
fn push_part(
    alloc: Global,
    lines: &mut Vec<u8>,
    names: &[Name],
    rows: &mut Vec<HitRow>,
    part: &ResultPart,
) -> Result<(), Memory>
    requires { is_bad_cut part.now ≡ false }
    ensures lines { PrintsPart names.now part.now rows.old.items result lines.old.items lines.new.items }
    ensures moved { IsPermutation rows.old.items rows.new.items }
{
    match part {
        ResultPart::Count => push_count(alloc, lines, rows.len()),
        ResultPart::Hits { first, last, keys } => {
            push_cut(alloc, lines, names, rows, *first, *last, keys.as_slice())
        }
        ResultPart::Group(column) => push_groups(alloc, lines, names, rows, column),
    }
}

/// The lines of all parts. Each orders or counts the rows anew, which takes no further read; n rows cost n log n comparisons a part.
pub(crate) fn part_lines(
    alloc: Global,
    parts: &[ResultPart],
    names: &[Name],
    hits: Vec<HitRow>,
) -> Result<Vec<u8>, Memory>
    requires { has_bad_cut parts.now ≡ false }
    ensures { HaveOwnKeys hits.items → IfOk result (λ lines. lines.items ≡ flat_map (held_text names.now (map ranked hits.items)) parts.now) }
{
    let mut rows = hits;
    let mut lines = Vec::new(alloc);
    for part in parts {
        push_part(alloc, &mut lines, names, &mut rows, part)?;
    }
    Ok(lines)
}

/// The lines, or that there is none.
pub(crate) fn or_none(alloc: Global, lines: Vec<u8>) -> Result<Vec<u8>, Memory>
    ensures { IfOk result (λ reply. reply.items ≡ text_or_none lines.items) }
{
    if lines.is_empty() {
        return fixed_reply(alloc, no_rows());
    }
    Ok(lines)
}
