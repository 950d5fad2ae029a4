//! The lines of a query.
#![tactic(auto, using(ct_keep::specs::laws::Composing::reads_on, ct_keep::specs::laws::Composing::reads_short))]

ghost use Rattle.std.specs.Prelude.{◌≡◌, ◌++◌, ◌∷◌, [], pos, IfOk, OnOk};
ghost use Rattle.ct_base.specs.declared.lists.Value.TheVariants.{Number};
ghost use Rattle.ct_keep.specs.KeeperViews.{OnlyReads};
ghost use Rattle.ct_keep.specs.Looks.{LooksAtMost};
ghost use Rattle.db_cond.specs.Lines.{line as line_text};
ghost use Rattle.db_rows.specs.Texts.{texts_alone, texts_left};
ghost use Rattle.db_select.specs.Fields.{ShowsWithin, read_line};
ghost use Rattle.db_select.specs.Giving.{GivesFoundReply, OverFound, OverOwn};
ghost use Rattle.db_select.specs.Hits.{rows_left};
ghost use Rattle.db_select.specs.Listing.{found_lines};
ghost use Rattle.db_select.specs.Looking.{shown_texts};
ghost use Rattle.db_select.specs.Selecting.{selected_left};

use crate::fields::row_fields;
use crate::finds::{FoundRow, Selected};
use crate::sources::{FieldSource, column_sources, sources_of};
use ct_base::{Memory, Name};
use ct_keep::{KeepFault, Keeper};
use db_cond::{line, no_rows};
use db_state::fixed_reply;
use st_parse::SelectList;
use std::alloc::Global;
use tb_table::Column;

/// Puts the line of a row that was found.
fn push_row<K: Keeper>(
    alloc: Global,
    keeper: &mut K,
    lines: &mut Vec<u8>,
    table: &Name,
    sources: &[FieldSource],
    row: FoundRow,
) -> Result<(), KeepFault>
    requires { (K.view keeper.old).ready }
    ensures line { OverFound K.view keeper.old table.now row (λ vs. OnOk result (lines.new.items ≡ lines.old.items ++ read_line sources.now row.hit vs)) }
    ensures reads { OnlyReads K.view keeper.old keeper.new result }
    ensures at_most { ShowsWithin K.view keeper.old keeper.new sources.now (λ places. texts_left places row.read) }
{
    let FoundRow { hit, mut read } = row;
    let fields = row_fields(alloc, keeper, table, sources, hit, &mut read)?;
    line(alloc, lines, &fields)?;
    Ok(())
}

/// A line for each row that was found, or that there is none. Its cost is that of the numbers of each row, and of its texts that are
/// shown, as far as they weren't read.
fn hit_lines<K: Keeper>(
    alloc: Global,
    keeper: &mut K,
    table: &Name,
    sources: &[FieldSource],
    rows: Vec<FoundRow>,
) -> Result<Vec<u8>, KeepFault>
    requires { (K.view keeper.old).ready }
    ensures lines { OverOwn K.view keeper.old table.now rows.items (λ ts. IfOk result (λ lines. lines.items ≡ found_lines ts table.now sources.now rows.items)) }
    ensures reads { OnlyReads K.view keeper.old keeper.new result }
    ensures at_most { ShowsWithin K.view keeper.old keeper.new sources.now (λ places. rows_left places rows.items) }
{
    if rows.is_empty() {
        return Ok(fixed_reply(alloc, no_rows())?);
    }
    let mut lines = Vec::new(alloc);
    for row in rows {
        push_row(alloc, keeper, &mut lines, table, sources, row)?;
    }
    Ok(lines)
}

/// The line of a count.
pub(crate) fn count_line(alloc: Global, count: usize) -> Result<Vec<u8>, Memory>
    ensures { IfOk result (λ reply. reply.items ≡ line_text (Number (pos count) ∷ [])) }
{
    let digits = format!(in alloc; "{count}")?;
    let mut reply = Vec::from_slice(alloc, digits.as_bytes())?;
    reply.push(b'\n')?;
    Ok(reply)
}

/// What a SELECT of a list replies for the rows that it found: their number, which reads nothing of them, or a line for each.
fn rows_reply<K: Keeper>(
    alloc: Global,
    keeper: &mut K,
    table: &Name,
    columns: &[Column],
    list: &SelectList,
    rows: Vec<FoundRow>,
) -> Result<Vec<u8>, KeepFault>
    requires { (K.view keeper.old).ready }
    ensures reply { GivesFoundReply K.view keeper.old table.now columns.now list.now (Selected.Rows rows) result }
    ensures reads { OnlyReads K.view keeper.old keeper.new result }
    ensures at_most { LooksAtMost K.view keeper.old keeper.new (texts_alone (rows_left (shown_texts list.now columns.now) rows.items)) }
{
    match list {
        SelectList::CountAll => Ok(count_line(alloc, rows.len())?),
        SelectList::Star => {
            let sources = column_sources(alloc, columns)?;
            hit_lines(alloc, keeper, table, &sources, rows)
        }
        SelectList::Items(items) => {
            let sources = sources_of(alloc, items.as_slice(), columns)?;
            hit_lines(alloc, keeper, table, &sources, rows)
        }
    }
}

/// What a SELECT of a list replies to what it found: the line of a refusal, or what the list asks of the rows.
pub(crate) fn found_reply<K: Keeper>(
    alloc: Global,
    keeper: &mut K,
    table: &Name,
    columns: &[Column],
    list: &SelectList,
    found: Selected,
) -> Result<Vec<u8>, KeepFault>
    requires { (K.view keeper.old).ready }
    ensures reply { GivesFoundReply K.view keeper.old table.now columns.now list.now found result }
    ensures reads { OnlyReads K.view keeper.old keeper.new result }
    ensures at_most { LooksAtMost K.view keeper.old keeper.new (texts_alone (selected_left (shown_texts list.now columns.now) found)) }
{
    match found {
        Selected::Refused(line) => Ok(line),
        Selected::Rows(rows) => rows_reply(alloc, keeper, table, columns, list, rows),
    }
}
