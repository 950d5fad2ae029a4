//! CREATE INDEX.
#![tactic(auto, using(ct_keep::specs::laws::Composing::reads_on, ct_keep::specs::laws::Composing::reads_short, ct_keep::specs::laws::Composing::accepts_on))]

ghost use Rattle.std.specs.Prelude.{◌≡◌, ◌<◌, ◌∷◌, [], IfOk, IfSome, Some, None, nat_le, length, true};
ghost use Rattle.std.proofs.Common.{inl, inr};
ghost use Rattle.ct_keep.specs.KeeperViews.{OnlyReads, Told};
ghost use Rattle.ct_keep.specs.Looks.{scan_looks, LooksAtMost};
ghost use Rattle.ct_entry.specs.declared.kinds.Kind.TheVariants as entry;
ghost use Rattle.ct_entry.specs.Kinds.{code};
ghost use Rattle.tx_settings.specs.Attributes.{can_be_set};
ghost use Rattle.db_state.specs.States.{OverStates, OverNamedTable, indexes_on, index_limit, Sees};
ghost use Rattle.db_index.specs.Asking.{CanBeCreated};
ghost use Rattle.db_index.specs.Indexing.{MakesIndex, MakesOver, PlansAsked, PlansFreeIndex, PlansIndex, all_rows, columns_or_none as columns_of_table, columns_read, create_index as create_index_effect, has_index_on as column_has_index, index_made, is_index_taken, nothing_more};
ghost use Rattle.db_state.specs.Plans.{IsStorePlan, Replies};
ghost use Rattle.db_state.specs.Shapes.{AcceptsStatements, AreStoreChanges};

use crate::asking::{Asked, Wanted, read_asked};
use crate::index_checks::{degree_by, index_fault, is_degree, is_text_at};
use crate::kinds::{BuiltKind, index_kind};
use crate::sub_columns::is_fitting;
use crate::thesauri::all_thesauri;
use cat_index::Catalogue;
use ct_base::{Name, Text};
use ct_keep::{Batch, KeepFault, Keeper};
use db_cond::Fault;
use db_names::{IndexHead, IndexKind, indexes_of};
use db_state::{
    Plan, carry_out, column_place, has_index, index_of_column, table_columns, target_of,
};
use ix_context::{ContextFault, KeyRange};
use rule_index::Rules;
use st_parse::Whole;
use std::alloc::Global;
use std::thread::Threads;
use tb_table::{Column, Target};
use tx_sets::keep_names;
use tx_settings::Prefs;

/// How many indexes a table has at most.
const INDEX_LIMIT: usize = 16;

/// Whether there is an index of a kind on a column, by its place.
fn has_index_on<K: Keeper>(
    alloc: Global,
    keeper: &mut K,
    kind: IndexKind,
    table: &Name,
    place: usize,
) -> Result<bool, KeepFault>
    requires { (K.view keeper.old).ready }
    ensures there { OverStates K.view keeper.old (λ m c. place < 256 → IfOk result (λ there. there ≡ column_has_index kind m.indexes table.now place)) }
    ensures reads { OnlyReads K.view keeper.old keeper.new result }
    ensures at_most { Told K.view keeper.old (λ m. LooksAtMost K.view keeper.old keeper.new (scan_looks (code entry.Indexes ∷ []) m)) }
{
    let other = index_of_column(alloc, keeper, kind, table, place)?;
    Ok(other.is_some())
}

/// Whether there is an index of the name, or one of the kind on the column.
fn is_taken<K: Keeper>(
    alloc: Global,
    keeper: &mut K,
    kind: BuiltKind,
    index: &Name,
    table: &Name,
    place: usize,
) -> Result<bool, KeepFault>
    requires { (K.view keeper.old).ready }
    ensures taken { OverStates K.view keeper.old (λ m c. place < 256 → IfOk result (λ taken. taken ≡ is_index_taken kind m index.now table.now place)) }
    ensures reads { OnlyReads K.view keeper.old keeper.new result }
{
    let there = has_index(alloc, keeper, index)?;
    let other = has_index_on(alloc, keeper, index_kind(kind), table, place)?;
    Ok(there || other)
}

/// Whether these are as many indexes as a table may have.
fn are_most(indexes: &[(Name, IndexHead)]) -> bool
    ensures { result ≡ nat_le index_limit (length indexes.now) }
{
    indexes.len() >= INDEX_LIMIT
}

/// Whether a table has as many indexes as it may have.
fn has_most_indexes<K: Keeper>(
    alloc: Global,
    keeper: &mut K,
    table: &Name,
) -> Result<bool, KeepFault>
    requires { (K.view keeper.old).ready }
    ensures many { Sees K.view keeper.old result (λ m many. many ≡ nat_le index_limit (length (indexes_on m.indexes table.now))) }
    ensures reads { OnlyReads K.view keeper.old keeper.new result }
    ensures at_most { Told K.view keeper.old (λ m. LooksAtMost K.view keeper.old keeper.new (scan_looks (code entry.Indexes ∷ []) m)) }
{
    let indexes = indexes_of(alloc, keeper, table)?;
    Ok(are_most(&indexes))
}

/// The changes of a new CONTEXT index; None where it would need more documents than there are numbers.
fn new_context<R: Threads + Sync, K: Keeper>(
    rt: &R,
    alloc: Global,
    degree: u32,
    keeper: &mut K,
    index: &Name,
    target: &Target,
    prefs: &Prefs,
) -> Result<Option<Batch>, KeepFault>
    requires ready { (K.view keeper.old).ready }
    requires set { can_be_set prefs.now.lexer ≡ true }
    ensures changes { OverStates K.view keeper.old (λ m c. IfOk result (MakesOver m (inl all_rows) index.now target.now prefs.now)) }
    ensures entries { IfOk result (λ found. IfSome found AreStoreChanges) }
    ensures reads { OnlyReads K.view keeper.old keeper.new result }
{
    let mut batch = Batch::new(alloc);
    match ix_context::create(
        rt,
        alloc,
        degree,
        keeper,
        &mut batch,
        index,
        target,
        prefs,
        KeyRange::ALL,
    ) {
        Ok(()) => Ok(Some(batch)),
        Err(ContextFault::TooMany) => Ok(None),
        Err(ContextFault::Memory) => Err(KeepFault::Memory),
        Err(ContextFault::Disk) => Err(KeepFault::Disk),
    }
}

/// The changes of a new catalogue.
fn new_catalogue<K: Keeper>(
    alloc: Global,
    keeper: &mut K,
    index: &Name,
    target: Target,
    wanted: Wanted,
) -> Result<Option<Batch>, KeepFault>
    requires ready { (K.view keeper.old).ready }
    requires can { CanBeCreated wanted }
    ensures changes { OverStates K.view keeper.old (λ m c. IfOk result (MakesOver m (inr (inl wanted.subs)) index.now target wanted.prefs)) }
    ensures entries { IfOk result (λ found. IfSome found AreStoreChanges) }
    ensures reads { OnlyReads K.view keeper.old keeper.new result }
{
    let catalogue = Catalogue {
        target,
        prefs: wanted.prefs,
        subs: wanted.subs,
    };
    let mut batch = Batch::new(alloc);
    cat_index::create(alloc, keeper, &mut batch, index, &catalogue)?;
    Ok(Some(batch))
}

/// The changes of a new rule index, by the thesauri as they are.
fn new_rules<K: Keeper>(
    alloc: Global,
    keeper: &mut K,
    index: &Name,
    target: &Target,
    prefs: &Prefs,
) -> Result<Option<Batch>, KeepFault>
    requires ready { (K.view keeper.old).ready }
    requires set { can_be_set prefs.now.lexer ≡ true }
    ensures changes { OverStates K.view keeper.old (λ m c. IfOk result (MakesOver m nothing_more index.now target.now prefs.now)) }
    ensures entries { IfOk result (λ found. IfSome found AreStoreChanges) }
    ensures reads { OnlyReads K.view keeper.old keeper.new result }
{
    let thesauri = all_thesauri(alloc, keeper)?;
    let mut batch = Batch::new(alloc);
    Rules::create(alloc, keeper, &mut batch, index, target, prefs, &thesauri)?;
    Ok(Some(batch))
}

/// The changes of a new index on a column, by its place; None where the index would need more documents than there are numbers,
/// or there is no such place.
fn created<R: Threads + Sync, K: Keeper>(
    rt: &R,
    alloc: Global,
    degree: u32,
    keeper: &mut K,
    kind: BuiltKind,
    index: &Name,
    table: &Name,
    place: usize,
    wanted: Wanted,
) -> Result<Option<Batch>, KeepFault>
    requires ready { (K.view keeper.old).ready }
    requires can { CanBeCreated wanted }
    ensures changes { OverStates K.view keeper.old (λ m c. place < 256 → IfOk result (MakesIndex m index.now table.now kind place wanted)) }
    ensures entries { IfOk result (λ found. IfSome found AreStoreChanges) }
    ensures reads { OnlyReads K.view keeper.old keeper.new result }
{
    let Ok(column) = u8::try_from(place) else {
        return Ok(None);
    };
    let target = target_of(table, column)?;
    match kind {
        BuiltKind::Context => {
            new_context(rt, alloc, degree, keeper, index, &target, &wanted.prefs)
        }
        BuiltKind::Catalogue => new_catalogue(alloc, keeper, index, target, wanted),
        BuiltKind::Rules => new_rules(alloc, keeper, index, &target, &wanted.prefs),
    }
}

/// The plan of an index of which no check holds.
fn free_plan<'a, R: Threads + Sync, K: Keeper>(
    rt: &R,
    alloc: Global,
    degree: u32,
    keeper: &mut K,
    kind: BuiltKind,
    index: &Name,
    table: &Name,
    place: usize,
    wanted: Wanted,
) -> Result<Plan<'a>, KeepFault>
    requires ready { (K.view keeper.old).ready }
    requires can { CanBeCreated wanted }
    ensures plan { OverStates K.view keeper.old (λ m c. PlansFreeIndex m c index.now table.now kind place wanted result) }
    ensures entries { IfOk result IsStorePlan }
    ensures reads { OnlyReads K.view keeper.old keeper.new result }
{
    // Read so that the proof knows that it is a name, and so are those of the columns.
    let _named = index.as_str();
    wanted.prefs.keep_rules();
    keep_names(wanted.subs.as_slice());
    let found = created(rt, alloc, degree, keeper, kind, index, table, place, wanted)?;
    let Some(batch) = found else {
        return Ok(Plan::Refused(Fault::LimitReached));
    };
    Ok(Plan::Done(batch))
}

/// What CREATE INDEX comes to on a column of a table that is there.
fn plan_on<'a, R: Threads + Sync, K: Keeper>(
    rt: &R,
    alloc: Global,
    degree: u32,
    keeper: &mut K,
    kind: BuiltKind,
    index: &'a Name,
    table: &Name,
    columns: &[Column],
    place: usize,
    wanted: Option<Wanted>,
    parallel: &Option<Whole>,
) -> Result<Plan<'a>, KeepFault>
    requires ready { (K.view keeper.old).ready }
    requires can { IfSome wanted CanBeCreated }
    ensures plan { OverNamedTable K.view keeper.old table.now (λ m c x. PlansIndex m c x index.now table.now kind parallel.now columns.now place wanted result) }
    ensures entries { IfOk result IsStorePlan }
    ensures reads { OnlyReads K.view keeper.old keeper.new result }
{
    let there = is_taken(alloc, keeper, kind, index, table, place)?;
    let many = has_most_indexes(alloc, keeper, table)?;
    if let Some(fault) = index_fault(
        there,
        is_text_at(columns, place),
        is_fitting(&wanted, columns),
        is_degree(parallel),
        many,
        index,
    ) {
        return Ok(Plan::Refused(fault));
    }
    let Some(wanted) = wanted else {
        unreachable!();
    };
    free_plan(rt, alloc, degree, keeper, kind, index, table, place, wanted)
}

/// The columns of a table; none where there is no table.
fn columns_or_none(columns: &Option<Vec<Column>>) -> &[Column]
    ensures { result.now ≡ columns_of_table (columns_read columns.now) }
{
    match columns {
        None => &[],
        Some(columns) => columns.as_slice(),
    }
}

/// What CREATE INDEX comes to, where the table has these columns, if it is there.
fn index_plan<'a, R: Threads + Sync, K: Keeper>(
    rt: &R,
    alloc: Global,
    degree: u32,
    keeper: &mut K,
    kind: BuiltKind,
    index: &'a Name,
    table: &'a Name,
    column: &'a Name,
    columns: &Option<Vec<Column>>,
    unknown: &'a Option<Name>,
    wanted: Option<Wanted>,
    parallel: &Option<Whole>,
) -> Result<Plan<'a>, KeepFault>
    requires ready { (K.view keeper.old).ready }
    requires can { IfSome wanted CanBeCreated }
    ensures plan { OverStates K.view keeper.old (λ m c. PlansAsked m c index.now table.now column.now kind parallel.now columns.now unknown.now wanted result) }
    ensures entries { IfOk result IsStorePlan }
    ensures reads { OnlyReads K.view keeper.old keeper.new result }
{
    let Some(columns) = columns else {
        return Ok(Plan::Refused(Fault::UnknownName(table.as_str())));
    };
    let Some(place) = column_place(column, columns) else {
        return Ok(Plan::Refused(Fault::UnknownName(column.as_str())));
    };
    if let Some(name) = unknown {
        return Ok(Plan::Refused(Fault::UnknownName(name.as_str())));
    }
    plan_on(
        rt, alloc, degree, keeper, kind, index, table, columns, place, wanted, parallel,
    )
}

/// CREATE INDEX: each row of the table becomes a document of the new CONTEXT index, is entered in the new catalogue under its words in
/// each sub-index, or is read as a rule of the new rule index: reduced with the thesauri as they are now and marked, or faulty. The
/// index reads texts by a copy of the preferences that PARAMETERS names, and a catalogue has a copy of the index set, so that it stays
/// as it is when these change later. The first of these that holds: E11 where there is no such table, column, preference or index set,
/// or a column of the index set is not one of the table; E12 where the index is there, or the column has one of the kind; E13 where the
/// column is a NUMBER; E30 where PARAMETERS isn't of the form that the kind takes, or a column of the index set is neither a NUMBER nor
/// a VARCHAR2 of at most 100; E22 where PARALLEL isn't from 1 to 16; E31 where the table has 16 indexes. So many threads as PARALLEL says,
/// and `degree` where it isn't there, read the texts of a CONTEXT index at most.
///
/// Its cost is that of copying the preferences, the length of the entries of all indexes, and what the texts hold, times a logarithm,
/// for each sub-index; for a rule index also that of loading all thesauri, once. All changes are in memory until the commit, and so are
/// the thesauri, one text and one reduced query.
pub fn create_index<R: Threads + Sync, K: Keeper>(
    rt: &R,
    alloc: Global,
    degree: u32,
    keeper: &mut K,
    index: &Name,
    table: &Name,
    column: &Name,
    kind: BuiltKind,
    parameters: &Option<Text>,
    parallel: &Option<Whole>,
) -> Result<Vec<u8>, KeepFault>
    requires { AcceptsStatements (K.view keeper.old) }
    ensures { Replies K.view keeper.old keeper.new result (λ m. create_index_effect m index.now table.now column.now kind parameters.now parallel.now) index_made }
{
    let columns = match table_columns(alloc, keeper, table) {
        Ok(columns) => columns,
        Err(fault) => return Err(fault),
    };
    let asked = match read_asked(alloc, keeper, kind, parameters, columns_or_none(&columns)) {
        Ok(asked) => asked,
        Err(fault) => return Err(fault),
    };
    let Asked { unknown, wanted } = asked;
    let degree = degree_by(parallel, degree);
    match index_plan(
        rt, alloc, degree, keeper, kind, index, table, column, &columns, &unknown, wanted, parallel,
    ) {
        Ok(plan) => carry_out(alloc, keeper, plan, b"Index created.\n"),
        Err(fault) => Err(fault),
    }
}
