//! What a statement tells the indexes on a table of a row.
#![tactic(auto, using(ct_keep::specs::laws::Composing::reads_on, ct_keep::specs::laws::Composing::reads_short))]

ghost use Rattle.std.specs.Prelude.{◌≡◌, ◌≤◌, [], IfOk, OnOk, Err, length, true, false};
ghost use Rattle.std.specs.List.{list_all};
ghost use Rattle.ct_base.specs.Limits.{sub_index_limit};
ghost use Rattle.ct_keep.specs.KeeperViews.{Finds, OnlyReads, ReadsKeeper, Told};
ghost use Rattle.ct_keep.specs.Looks.{LooksAtMost, no_looks};
ghost use Rattle.ct_entry.specs.Keys.{at};
ghost use Rattle.ct_entry.specs.Removals.{OnlyRemoves};
ghost use Rattle.ct_entry.specs.Shapes.{AreShaped};
ghost use Rattle.tx_settings.specs.Attributes.{can_be_set};
ghost use Rattle.ix_context.specs.Faults.{context_fault_of};
ghost use Rattle.ix_context.specs.Shapes.{HasContextValue, KeepsShape};
ghost use Rattle.cat_index.specs.Filings.{fit_sub_index};
ghost use Rattle.cat_index.specs.Catalogues.{filing};
ghost use Rattle.cat_index.specs.Shapes.{HasCatalogueValue, IsFiling};
ghost use Rattle.rule_index.specs.Matching.{rule_looks};
ghost use Rattle.rule_index.specs.Sees.{ToldRules};
ghost use Rattle.rule_index.specs.Shapes.{HasRuleValue, KeepsShape as KeepsRuleShape};
ghost use Rattle.ix_indexes.specs.Noting.{AddsNotes, AllCanTell, AreNotes, CanTell, DropsGoing, FilesAnew, FilesRow, IsGoing, IsShortIn, NotesIndex, NotesIndexes, any_needs_values, catalogue_by, changes_in_catalogue, changes_in_context, needs_values as needs_its_values, noted_by, noted_indexes, noted_looks_up, changes_in_rules, rules_read};
ghost use Rattle.ix_indexes.specs.Shapes.{HasIndexValue};

use crate::loading::{Noting, TableIndex};
use cat_index::{Catalogue, Filing, row_comes, row_filing, row_goes, row_is_set};
use ct_base::{Listed, Memory, Name, RowKey, Value};
use ct_keep::{Batch, KeepFault, Keeper};
use ix_context::{ContextFault, note_delete, note_insert, note_update};
use rule_index::Rules;
use std::alloc::Global;

/// What a statement does to a row, with the values that it has behind its key before and after.
#[derive(Clone, Copy, Debug)]
pub enum RowEvent<'v> {
    /// The row is new, and has these values.
    Comes(&'v [Value]),
    /// A column of it is set that the index looks at: it had the first values, and has the second.
    Changes(&'v [Value], &'v [Value]),
    /// The row goes, which had these values.
    Goes(&'v [Value]),
}

/// Adds the changes of a row in a CONTEXT index.
fn note_in_context<K: Keeper>(
    alloc: Global,
    keeper: &mut K,
    batch: &mut Batch,
    index: &Name,
    row: RowKey,
    event: RowEvent<'_>,
) -> Result<(), ContextFault>
    requires { (K.view keeper.old).ready }
    ensures changes { Told K.view keeper.old (λ m. AddsNotes event.entry row.0 batch.old batch.new result (changes_in_context (at m) index.now)) }
    ensures never_too_many { result ≡ Err ContextFault.TooMany → ⊥ }
    ensures shaped { KeepsShape batch.old batch.new result }
    ensures reads { ReadsKeeper (K.view keeper.old) (K.view keeper.new) (context_fault_of result) }
    ensures at_most { LooksAtMost K.view keeper.old keeper.new no_looks }
{
    // Read so that the proof knows that it is a name.
    let _named = index.as_str();
    match event {
        RowEvent::Comes(_) => note_insert(alloc, batch, index, row),
        RowEvent::Changes(_, _) => note_update(alloc, keeper, batch, index, row),
        RowEvent::Goes(_) => note_delete(alloc, keeper, batch, index, row),
    }
}

/// The changes of a row in a CONTEXT index.
fn context_notes<K: Keeper>(
    alloc: Global,
    keeper: &mut K,
    index: &Name,
    row: RowKey,
    event: RowEvent<'_>,
) -> Result<Batch, KeepFault>
    requires { (K.view keeper.old).ready }
    ensures changes { Finds K.view keeper.old result (λ m. AreNotes event.entry false row.0 (changes_in_context (at m) index.now)) }
    ensures shaped { IfOk result (AreShaped HasContextValue) }
    ensures reads { OnlyReads K.view keeper.old keeper.new result }
    ensures at_most { LooksAtMost K.view keeper.old keeper.new no_looks }
{
    let mut notes = Batch::new(alloc);
    match note_in_context(alloc, keeper, &mut notes, index, row, event) {
        Ok(()) => Ok(notes),
        Err(ContextFault::Memory) => Err(KeepFault::Memory),
        Err(ContextFault::Disk) => Err(KeepFault::Disk),
        Err(ContextFault::TooMany) => unreachable!(),
    }
}

/// Adds the changes of a row in a rule index.
fn note_in_rules<K: Keeper>(
    alloc: Global,
    keeper: &mut K,
    batch: &mut Batch,
    index: &Name,
    row: RowKey,
    event: RowEvent<'_>,
) -> Result<(), KeepFault>
    requires { (K.view keeper.old).ready }
    ensures changes { ToldRules K.view keeper.old index.now (λ m t x. AddsNotes event.entry row.0 batch.old batch.new result (changes_in_rules (at m) index.now)) }
    ensures removes { IsGoing event.entry → OnOk result (OnlyRemoves batch.old batch.new) }
    ensures shaped { KeepsRuleShape batch.old batch.new result }
    ensures reads { OnlyReads K.view keeper.old keeper.new result }
    ensures at_most { LooksAtMost K.view keeper.old keeper.new (rule_looks 1) }
{
    match event {
        RowEvent::Comes(_) => {
            Rules::note_insert(alloc, batch, index, row)?;
            Ok(())
        }
        RowEvent::Changes(_, _) => Rules::note_update(alloc, keeper, batch, index, row),
        RowEvent::Goes(_) => Rules::note_delete(alloc, keeper, batch, index, row),
    }
}

/// The changes of a row in a rule index.
fn rule_notes<K: Keeper>(
    alloc: Global,
    keeper: &mut K,
    index: &Name,
    row: RowKey,
    event: RowEvent<'_>,
) -> Result<Batch, KeepFault>
    requires { (K.view keeper.old).ready }
    ensures changes { ToldRules K.view keeper.old index.now (λ m t x. IfOk result (AreNotes event.entry false row.0 (changes_in_rules (at m) index.now))) }
    ensures removes { IsGoing event.entry → IfOk result (OnlyRemoves []) }
    ensures shaped { IfOk result (AreShaped HasRuleValue) }
    ensures reads { OnlyReads K.view keeper.old keeper.new result }
    ensures at_most { LooksAtMost K.view keeper.old keeper.new (rule_looks 1) }
{
    let mut notes = Batch::new(alloc);
    note_in_rules(alloc, keeper, &mut notes, index, row, event)?;
    Ok(notes)
}

/// What a row with these values has in a catalogue.
fn filing_of(
    alloc: Global,
    catalogue: &Catalogue,
    places: &[Listed<usize>],
    row: RowKey,
    values: &[Value],
) -> Result<Filing, Memory>
    requires set { can_be_set catalogue.now.prefs.lexer ≡ true }
    requires few { length places.now ≤ sub_index_limit }
    requires each { list_all fit_sub_index places.now ≡ true }
    ensures filing { IsShortIn catalogue.now values.now → IfOk result (λ w. w ≡ filing (catalogue_by catalogue.now places.now) row.0 values.now) }
    ensures fits { IfOk result IsFiling }
{
    row_filing(
        alloc,
        &catalogue.prefs,
        catalogue.target.column,
        places,
        row,
        values,
    )
}

/// The changes of a row that comes to a catalogue with these values, or goes from it.
fn filed_notes(
    alloc: Global,
    index: &Name,
    catalogue: &Catalogue,
    places: &[Listed<usize>],
    row: RowKey,
    values: &[Value],
    there: bool,
) -> Result<Batch, Memory>
    requires set { can_be_set catalogue.now.prefs.lexer ≡ true }
    requires few { length places.now ≤ sub_index_limit }
    requires each { list_all fit_sub_index places.now ≡ true }
    ensures changes { IsShortIn catalogue.now values.now → IfOk result (FilesRow index.now (catalogue_by catalogue.now places.now) row.0 values.now there) }
    ensures shaped { IfOk result (AreShaped HasCatalogueValue) }
{
    let filing = filing_of(alloc, catalogue, places, row, values)?;
    let mut notes = Batch::new(alloc);
    if there {
        row_comes(alloc, &mut notes, index, row, &filing)?;
    } else {
        row_goes(alloc, &mut notes, index, row, &filing)?;
    }
    Ok(notes)
}

/// The changes of a row in a catalogue that had the first values, and has the second.
fn set_notes(
    alloc: Global,
    index: &Name,
    catalogue: &Catalogue,
    places: &[Listed<usize>],
    row: RowKey,
    old: &[Value],
    new: &[Value],
) -> Result<Batch, Memory>
    requires set { can_be_set catalogue.now.prefs.lexer ≡ true }
    requires few { length places.now ≤ sub_index_limit }
    requires each { list_all fit_sub_index places.now ≡ true }
    ensures changes { IsShortIn catalogue.now old.now → IsShortIn catalogue.now new.now → IfOk result (FilesAnew index.now (catalogue_by catalogue.now places.now) row.0 old.now new.now) }
    ensures shaped { IfOk result (AreShaped HasCatalogueValue) }
{
    let before = filing_of(alloc, catalogue, places, row, old)?;
    let after = filing_of(alloc, catalogue, places, row, new)?;
    let mut notes = Batch::new(alloc);
    row_is_set(alloc, &mut notes, index, row, &before, &after)?;
    Ok(notes)
}

/// The changes of a row in a catalogue.
fn catalogue_notes(
    alloc: Global,
    index: &Name,
    catalogue: &Catalogue,
    places: &[Listed<usize>],
    row: RowKey,
    event: RowEvent<'_>,
) -> Result<Batch, Memory>
    requires set { can_be_set catalogue.now.prefs.lexer ≡ true }
    requires few { length places.now ≤ sub_index_limit }
    requires each { list_all fit_sub_index places.now ≡ true }
    ensures changes { IfOk result (AreNotes event.entry true row.0 (changes_in_catalogue index.now (catalogue_by catalogue.now places.now))) }
    ensures shaped { IfOk result (AreShaped HasCatalogueValue) }
{
    match event {
        RowEvent::Comes(new) => filed_notes(alloc, index, catalogue, places, row, new, true),
        RowEvent::Changes(old, new) => set_notes(alloc, index, catalogue, places, row, old, new),
        RowEvent::Goes(old) => filed_notes(alloc, index, catalogue, places, row, old, false),
    }
}

/// The changes of a row in an index.
fn index_notes<K: Keeper>(
    alloc: Global,
    keeper: &mut K,
    index: &TableIndex,
    row: RowKey,
    event: RowEvent<'_>,
) -> Result<Batch, KeepFault>
    requires ready { (K.view keeper.old).ready }
    requires can { CanTell index.now }
    ensures changes { Finds K.view keeper.old result (λ m. NotesIndex m index.now event.entry row.0) }
    ensures drops { Finds K.view keeper.old result (λ m. DropsGoing (needs_its_values (noted_by index.now.noting)) event.entry row.0) }
    ensures shaped { IfOk result (AreShaped HasIndexValue) }
    ensures reads { OnlyReads K.view keeper.old keeper.new result }
    ensures at_most { LooksAtMost K.view keeper.old keeper.new (rule_looks (rules_read (noted_by index.now.noting))) }
{
    match &index.noting {
        Noting::InContext(_) => context_notes(alloc, keeper, &index.name, row, event),
        Noting::InCatalogue(catalogue, places) => {
            let places = places.as_slice();
            let notes = catalogue_notes(alloc, &index.name, catalogue, places, row, event)?;
            Ok(notes)
        }
        Noting::InRules(_) => rule_notes(alloc, keeper, &index.name, row, event),
    }
}

/// The changes of a row in each of these indexes.
///
/// A CONTEXT index takes one look-up, of the row's document, and none for a row that comes. A catalogue takes none: its changes are by the
/// values that the event has, at the cost of reading the row's text. A rule index takes one look-up, of the row's rule, and none for a row
/// that comes. Where no index is a catalogue (`needs_values`), the values of the event may be any. No text and no posting is looked up. It
/// never answers Full.
pub fn row_notes<K: Keeper>(
    alloc: Global,
    keeper: &mut K,
    indexes: &[TableIndex],
    row: RowKey,
    event: RowEvent<'_>,
) -> Result<Batch, KeepFault>
    requires ready { (K.view keeper.old).ready }
    requires can { AllCanTell indexes.now }
    ensures changes { Finds K.view keeper.old result (λ m. NotesIndexes m indexes.now event.entry row.0) }
    ensures drops { Finds K.view keeper.old result (λ m. DropsGoing (any_needs_values indexes.now) event.entry row.0) }
    ensures shaped { IfOk result (AreShaped HasIndexValue) }
    ensures reads { OnlyReads K.view keeper.old keeper.new result }
    ensures at_most { LooksAtMost K.view keeper.old keeper.new (noted_looks_up (noted_indexes indexes.now)) }
{
    let mut notes = Batch::new(alloc);
    let mut rest = indexes;
    'each: while let Some((index, later)) = rest.split_first() {
        let changes = index_notes(alloc, keeper, index, row, event)?;
        notes.append(changes)?;
        rest = later;
    }
    Ok(notes)
}
