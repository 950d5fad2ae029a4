//! The entries of indexes.
#![tactic(auto, using(ct_keep::specs::laws::Composing::reads_short))]

ghost use Rattle.std.specs.Prelude.{◌≡◌, [], ◌∷◌, IfOk, IfSome, OnErr, Some, None, true};
ghost use Rattle.std.specs.Option.{option_map};
ghost use Rattle.ct_keep.specs.KeeperViews.{Finds, OnlyReads};
ghost use Rattle.ct_keep.specs.Looks.{look, LooksAtMost};
ghost use Rattle.ct_entry.specs.declared.kinds.Kind.TheVariants as kind;
ghost use Rattle.ct_entry.specs.Keys.{key, bytes, at};
ghost use Rattle.tx_settings.specs.Attributes.{can_be_set};
ghost use Rattle.ix_rows.specs.Stores.{Untidy};
ghost use Rattle.ix_context.specs.Places.{IsPlace, IsPlaceRead, no_place, place_bytes};
ghost use Rattle.ix_context.specs.Spelling.{SpellsIndex, index_change, stored_bytes, stored_change, HasIndexParts};
ghost use Rattle.ix_context.specs.Changes.{Adds};
ghost use Rattle.ix_context.specs.Shapes.{KeepsShape};

use crate::places::{Place, Tidiness, put_end, read_end};
use ct_base::{Memory, Name};
use ct_bytes::{put_text, put_u32, read_text, read_u32};
use ct_entry::{Kind, fetch_entry, put_entry};
use ct_keep::{Batch, KeepFault, Keeper};
use std::alloc::Global;
use tb_table::Target;
use tx_settings::Prefs;

/// What the entry of an index says.
#[derive(Debug, Drop)]
pub struct IndexEntry {
    pub target: Target,
    /// How it reads texts.
    pub prefs: Prefs,
    /// The document that it gives next.
    pub next_document: u32,
    pub tidiness: Tidiness,
    /// Where an optimisation with a limit goes on.
    pub place: Place,
}

/// The bytes of the entry of an index.
fn index_value(
    alloc: Global,
    target: &Target,
    prefs: &Prefs,
    next_document: u32,
    tidiness: Tidiness,
    place: &Place,
) -> Result<Vec<u8>, Memory>
    requires { IsPlace (place_bytes place.now) }
    ensures { IfOk result (λ v. v.items ≡ stored_bytes target.now prefs.now next_document tidiness place.now) }
{
    let mut value = Vec::new(alloc);
    value.push(1)?;
    put_text(&mut value, target.table.as_str().as_bytes())?;
    value.extend_from_slice(&[target.column, 0])?;
    prefs.put(&mut value)?;
    value.push(0)?;
    put_u32(&mut value, next_document)?;
    put_end(&mut value, tidiness, place)?;
    Ok(value)
}

/// Adds the change that puts the entry of an index: its target, its preferences, the number of its next document, how tidy it is, and
/// the place where an optimisation goes on. The batch is unchanged at an error.
///
/// Its cost is the length of the entry.
pub fn put_index(
    alloc: Global,
    batch: &mut Batch,
    index: &Name,
    target: &Target,
    prefs: &Prefs,
    next_document: u32,
    tidiness: Tidiness,
    place: &Place,
) -> Result<(), Memory>
    requires set { can_be_set prefs.now.lexer ≡ true }
    requires place { IsPlace (place_bytes place.now) }
    ensures ok { Adds batch.old batch.new result (stored_change index.now target.now prefs.now next_document tidiness place.now ∷ []) }
    ensures err { OnErr result (batch.new ≡ batch.old) }
    ensures shaped { KeepsShape batch.old batch.new result }
{
    // Read so that the proof knows the rules of names, preferences and numbers.
    let _named = index.as_str();
    let _table = target.table.as_str();
    let _column = target.column;
    prefs.keep_rules();
    let value = index_value(alloc, target, prefs, next_document, tidiness, place)?;
    put_entry(alloc, batch, Kind::Indexes, index, &[], value)
}

/// Adds the change that puts the entry of a new index: it is untidy, and an optimisation begins with the first token.
pub(crate) fn put_new_index(
    alloc: Global,
    batch: &mut Batch,
    index: &Name,
    target: &Target,
    prefs: &Prefs,
    next_document: u32,
) -> Result<(), Memory>
    requires { can_be_set prefs.now.lexer ≡ true }
    ensures ok { Adds batch.old batch.new result (index_change index.now target.now prefs.now next_document Untidy no_place ∷ []) }
    ensures err { OnErr result (batch.new ≡ batch.old) }
    ensures shaped { KeepsShape batch.old batch.new result }
{
    let tidiness = Tidiness::Untidy;
    let place = Place::Start;
    put_index(
        alloc,
        batch,
        index,
        target,
        prefs,
        next_document,
        tidiness,
        &place,
    )
}

/// The table, the column, the preferences, the next document and the end, where the bytes are those of an index. None where they spell none.
fn parts(alloc: Global, value: &[u8]) -> Result<Option<(&[u8], u8, Prefs, u32, &[u8])>, Memory>
    ensures parts { IfOk result (λ found. HasIndexParts value.now (option_map (λ r. (r.0.now, r.1, r.2, r.3, r.4.now)) found)) }
    ensures set { IfOk result (λ found. IfSome found (λ r. can_be_set r.2.lexer ≡ true)) }
{
    let Some((table, at)) = read_text(value, 1) else {
        return Ok(None);
    };
    let Some(column) = value.get(at) else {
        return Ok(None);
    };
    let Some((prefs, next)) = Prefs::read(alloc, value, at + 2)? else {
        return Ok(None);
    };
    let Some(next_document) = read_u32(value, next + 1) else {
        return Ok(None);
    };
    let end = &value[next + 5..];
    Ok(Some((table, *column, prefs, next_document, end)))
}

/// The index that the bytes spell.
pub(crate) fn index_of(alloc: Global, value: &[u8]) -> Result<Option<IndexEntry>, Memory>
    ensures spells { IfOk result (λ found. SpellsIndex (Some value.now) found) }
    ensures set { IfOk result (λ found. IfSome found (λ e. can_be_set e.prefs.lexer ≡ true)) }
    ensures place { IfOk result (λ found. IfSome found (λ e. IsPlaceRead e.place)) }
{
    let Some((table, column, prefs, next_document, end)) = parts(alloc, value)? else {
        return Ok(None);
    };
    let Some(table) = Name::of_bytes(alloc, table)? else {
        return Ok(None);
    };
    let Some((tidiness, place)) = read_end(alloc, end)? else {
        return Ok(None);
    };
    prefs.keep_rules();
    let target = Target { table, column };
    let written = index_value(alloc, &target, &prefs, next_document, tidiness, &place)?;
    if written.as_slice() == value {
        Ok(Some(IndexEntry {
            target,
            prefs,
            next_document,
            tidiness,
            place,
        }))
    } else {
        Ok(None)
    }
}

/// What the entry of an index says. None where there is no such index, or its entry isn't that of one. It takes one look-up, and never
/// answers Full.
pub fn read_index<K: Keeper>(
    alloc: Global,
    keeper: &mut K,
    index: &Name,
) -> Result<Option<IndexEntry>, KeepFault>
    requires { (K.view keeper.old).ready }
    ensures set { IfOk result (λ found. IfSome found (λ e. can_be_set e.prefs.lexer ≡ true)) }
    ensures place { IfOk result (λ found. IfSome found (λ e. IsPlaceRead e.place)) }
    ensures value { Finds K.view keeper.old result (λ m found. SpellsIndex (at m (key kind.Indexes index.now [])) found) }
    ensures reads { OnlyReads K.view keeper.old keeper.new result }
    ensures at_most { LooksAtMost K.view keeper.old keeper.new (look (bytes (key kind.Indexes index.now [])) None) }
{
    let Some(value) = fetch_entry(alloc, keeper, Kind::Indexes, index, &[])? else {
        return Ok(None);
    };
    let found = index_of(alloc, &value)?;
    Ok(found)
}
