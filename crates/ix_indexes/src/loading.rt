//! The indexes on a table, as changes of its rows need them.
#![tactic(auto, using(ct_keep::specs::laws::Composing::reads_on, ct_keep::specs::laws::Composing::reads_short))]

ghost use Rattle.std.specs.Prelude.{◌≡◌, ◌==◌, ◌∷◌, ◌++◌, [], map, true, Some, IfOk, IfSome, OnOk};
ghost use Rattle.std.specs.List.{cons_option, list_any};
ghost use Rattle.std.specs.FinMap.{get};
ghost use Rattle.ct_keep.specs.KeeperViews.{OnlyReads};
ghost use Rattle.ix_kinds.specs.Rows.{table_at};
ghost use Rattle.ix_kinds.specs.Indextypes.{IndexOf};
ghost use Rattle.tx_settings.specs.Attributes.{can_be_set};
ghost use Rattle.tx_sets.specs.Sets.{are_sub_indexes};
ghost use Rattle.cat_index.specs.Catalogues.{CatalogueBody, has_place, places_in};
ghost use Rattle.ix_indexes.specs.declared.loading.Noting.TheVariants.{InCatalogue as HeldCatalogue};
ghost use Rattle.ix_indexes.specs.Indexes.{as_catalogue};
ghost use Rattle.ix_indexes.specs.Noting.{AllCanTell, CanTell, InCatalogue, OverIndexes, noted_at, noted_by, noted_indexes, noted_looks, noted_named, any_needs_values, needs_values as needs_its_values};
ghost use Rattle.ix_indexes.specs.Loading.{AreHeadsOf, IsHeadOf, noted_or_none};

use cat_index::{Catalogue, catalogue_of, places_in};
use ct_base::{Listed, Memory, Name};
use ct_keep::{KeepFault, Keeper};
use db_names::{IndexHead, IndexKind};
use std::alloc::Global;
use tb_table::Column;
use tx_sets::are_sub_indexes;

/// How an index is told of rows.
#[derive(Debug, Drop)]
pub enum Noting {
    /// As a CONTEXT index on the column at this place.
    InContext(u8),
    /// As a catalogue, with the places in its table of the columns of its sub-indexes.
    InCatalogue(Catalogue, Listed<Listed<usize>>),
    /// As a rule index on the column at this place.
    InRules(u8),
}

/// An index on a table, as changes of rows need it.
#[derive(Debug, Drop)]
pub struct TableIndex {
    pub name: Name,
    pub noting: Noting,
}

/// Whether an index looks at the column at this place.
///
/// Its cost is the number of columns that it looks at.
pub fn looks_at(index: &TableIndex, place: usize) -> bool
    ensures { result ≡ noted_looks (noted_by index.now.noting) place }
{
    match &index.noting {
        Noting::InContext(column) | Noting::InRules(column) => place == usize::from(*column),
        Noting::InCatalogue(catalogue, places) => {
            place == usize::from(catalogue.target.column) || has_place(places.as_slice(), place)
        }
    }
}

/// Whether one of these lists has the place.
fn has_place(places: &[Listed<usize>], place: usize) -> bool
    ensures { result ≡ has_place places.now place }
{
    let mut rest = places;
    while let [first, later @ ..] = rest {
        if is_among(first.as_slice(), place) {
            return true;
        }
        rest = later;
    }
    false
}

/// Whether the place is one of these.
fn is_among(places: &[usize], place: usize) -> bool
    ensures { result ≡ list_any (λ p. place == p) places.now }
{
    let mut rest = places;
    while let [first, later @ ..] = rest {
        if place == *first {
            return true;
        }
        rest = later;
    }
    false
}

/// Whether an index needs the values of rows: whether it is a catalogue.
fn needs_its_values(index: &TableIndex) -> bool
    ensures { result ≡ needs_its_values (noted_by index.now.noting) }
{
    match &index.noting {
        Noting::InContext(_) | Noting::InRules(_) => false,
        Noting::InCatalogue(_, _) => true,
    }
}

/// Whether one of these indexes needs the values of rows that come, change or go.
pub fn needs_values(indexes: &[TableIndex]) -> bool
    ensures { result ≡ any_needs_values indexes.now }
{
    let mut rest = indexes;
    while let [first, later @ ..] = rest {
        if needs_its_values(first) {
            return true;
        }
        rest = later;
    }
    false
}

/// A catalogue over the columns of its table.
fn index_over(
    alloc: Global,
    name: Name,
    catalogue: Catalogue,
    columns: &[Column],
) -> Result<TableIndex, Memory>
    requires set { can_be_set catalogue.prefs.lexer ≡ true }
    requires subs { are_sub_indexes catalogue.subs ≡ true }
    ensures index { IfOk result (λ x. x ≡ record { name = name; noting = HeldCatalogue catalogue (places_in columns.now catalogue.subs) }) }
    ensures can_tell { IfOk result CanTell }
{
    let places = places_in(alloc, columns, catalogue.subs.as_slice())?;
    let noting = Noting::InCatalogue(catalogue, Listed::of(places));
    Ok(TableIndex { name, noting })
}

/// The catalogue of this name on a table with these columns.
fn catalogue_on<K: Keeper>(
    alloc: Global,
    keeper: &mut K,
    name: Name,
    columns: &[Column],
) -> Result<Option<TableIndex>, KeepFault>
    requires { (K.view keeper.old).ready }
    ensures noted { OverIndexes K.view keeper.old (λ ts xs. (x : IndexOf CatalogueBody) → get xs name ≡ Some (as_catalogue x) → columns.now ≡ (table_at ts x.table).columns → IfOk result (λ found. noted_or_none found ≡ (name, InCatalogue x) ∷ [])) }
    ensures can_tell { IfOk result (λ found. IfSome found CanTell) }
    ensures reads { OnlyReads K.view keeper.old keeper.new result }
{
    let Some(catalogue) = catalogue_of(alloc, keeper, &name)? else {
        return Ok(None);
    };
    if !are_sub_indexes(catalogue.subs.as_slice()) {
        return Ok(None);
    }
    let index = index_over(alloc, name, catalogue, columns)?;
    Ok(Some(index))
}

/// The same name once more.
fn copy_of(name: &Name) -> Result<Name, Memory>
    ensures { IfOk result (λ copy. copy ≡ name.now) }
{
    let copy = name.clone()?;
    Ok(copy)
}

/// The index with this head on a table with these columns; None where its entry is that of no catalogue.
fn table_index<K: Keeper>(
    alloc: Global,
    keeper: &mut K,
    index: &Name,
    head: &IndexHead,
    columns: &[Column],
) -> Result<Option<TableIndex>, KeepFault>
    requires { (K.view keeper.old).ready }
    ensures noted { OverIndexes K.view keeper.old (λ ts xs. IsHeadOf ts xs columns.now (index.now, head.now) → IfOk result (λ found. noted_or_none found ≡ noted_at index.now (get xs index.now))) }
    ensures can_tell { IfOk result (λ found. IfSome found CanTell) }
    ensures reads { OnlyReads K.view keeper.old keeper.new result }
{
    let name = copy_of(index)?;
    match head.kind {
        IndexKind::Context => {
            let noting = Noting::InContext(head.target.column);
            Ok(Some(TableIndex { name, noting }))
        }
        IndexKind::Catalogue => catalogue_on(alloc, keeper, name, columns),
        IndexKind::Rules => {
            let noting = Noting::InRules(head.target.column);
            Ok(Some(TableIndex { name, noting }))
        }
    }
}

/// Adds an index, if there is one.
fn add_index(found: &mut Vec<TableIndex>, index: Option<TableIndex>) -> Result<(), Memory>
    ensures { OnOk result (found.new.items ≡ found.old.items ++ cons_option index []) }
{
    if let Some(index) = index {
        found.push(index)?;
    }
    Ok(())
}

/// The indexes with these heads, which are on a table with these columns, as changes of its rows need them.
///
/// It takes a look-up for each catalogue, whose cost is the length of its entry. It never answers Full.
pub fn table_indexes<K: Keeper>(
    alloc: Global,
    keeper: &mut K,
    heads: &[(Name, IndexHead)],
    columns: &[Column],
) -> Result<Vec<TableIndex>, KeepFault>
    requires { (K.view keeper.old).ready }
    ensures indexes { OverIndexes K.view keeper.old (λ ts xs. AreHeadsOf ts xs columns.now heads.now → IfOk result (λ found. noted_indexes found.items ≡ noted_named xs (map (λ h. h.0) heads.now))) }
    ensures can_tell { IfOk result (λ found. AllCanTell found.items) }
    ensures reads { OnlyReads K.view keeper.old keeper.new result }
{
    let mut found = Vec::new(alloc);
    let mut rest = heads;
    'each: while let Some((head, later)) = rest.split_first() {
        let index = table_index(alloc, keeper, &head.0, &head.1, columns)?;
        add_index(&mut found, index)?;
        rest = later;
    }
    Ok(found)
}
