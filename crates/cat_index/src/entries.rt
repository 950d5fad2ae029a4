//! The entries of catalogues.
#![tactic(auto, using(ct_keep::specs::laws::Composing::reads_short))]

ghost use Rattle.std.specs.Prelude.{◌≡◌, [], ◌∷◌, IfOk, IfSome, OnErr, Some, None, true};
ghost use Rattle.std.specs.Option.{option_map};
ghost use Rattle.ct_keep.specs.KeeperViews.{Finds, OnlyReads};
ghost use Rattle.ct_keep.specs.Looks.{look, LooksAtMost};
ghost use Rattle.ct_entry.specs.declared.kinds.Kind.TheVariants as kind;
ghost use Rattle.ct_entry.specs.Keys.{key, bytes, at};
ghost use Rattle.tx_settings.specs.Attributes.{can_be_set};
ghost use Rattle.tx_sets.specs.Sets.{are_sub_indexes};
ghost use Rattle.cat_index.specs.Changes.{Adds};
ghost use Rattle.cat_index.specs.Shapes.{KeepsShape};
ghost use Rattle.cat_index.specs.Spelling.{catalogue_bytes, catalogue_change, IsSpellable, SpellsCatalogue};
ghost use Rattle.cat_index.specs.Parts.{HasParts};

use crate::catalogues::Catalogue;
use ct_base::{Listed, Memory, Name};
use ct_bytes::{put_text, read_text};
use ct_entry::{Kind, fetch_entry, put_entry};
use ct_keep::{Batch, KeepFault, Keeper};
use std::alloc::Global;
use tb_table::Target;
use tx_sets::{SubIndex, are_sub_indexes, keep_names, put_set, read_set};
use tx_settings::Prefs;

/// The bytes of the entry of a catalogue.
fn catalogue_value(alloc: Global, catalogue: &Catalogue) -> Result<Vec<u8>, Memory>
    requires { are_sub_indexes catalogue.now.subs ≡ true }
    ensures { IfOk result (λ v. v.items ≡ catalogue_bytes catalogue.now) }
{
    let mut value = Vec::new(alloc);
    value.push(2)?;
    put_text(&mut value, catalogue.target.table.as_str().as_bytes())?;
    value.extend_from_slice(&[catalogue.target.column, 0])?;
    catalogue.prefs.put(&mut value)?;
    put_set(&mut value, catalogue.subs.as_slice())?;
    value.extend_from_slice(&[0, 0, 0, 0, 0, 0, 0])?;
    Ok(value)
}

/// States what an entry of a catalogue keeps to, where its preferences can be set and its sub-indexes are within the limits. Its
/// cost is linear in the number of sections, characters and columns.
fn keep_rules(catalogue: &Catalogue)
    requires set { can_be_set catalogue.now.prefs.lexer ≡ true }
    requires subs { are_sub_indexes catalogue.now.subs ≡ true }
    ensures { IsSpellable catalogue.now }
{
    // What a name and a number behind a reference keep to is known once they are read.
    let _table = catalogue.target.table.as_str();
    let _column = catalogue.target.column;
    catalogue.prefs.keep_rules();
    keep_names(catalogue.subs.as_slice());
}

/// Adds the change that gives a catalogue its entry. It fails only for want of memory, and then the batch is unchanged.
pub(crate) fn put_catalogue(
    alloc: Global,
    batch: &mut Batch,
    index: &Name,
    catalogue: &Catalogue,
) -> Result<(), Memory>
    requires set { can_be_set catalogue.now.prefs.lexer ≡ true }
    requires subs { are_sub_indexes catalogue.now.subs ≡ true }
    ensures ok { Adds batch.old batch.new result (catalogue_change index.now catalogue.now ∷ []) }
    ensures err { OnErr result (batch.new ≡ batch.old) }
    ensures shaped { KeepsShape batch.old batch.new result }
{
    // Read so that the proof knows that it is a name.
    let _named = index.as_str();
    keep_rules(catalogue);
    let value = catalogue_value(alloc, catalogue)?;
    put_entry(alloc, batch, Kind::Indexes, index, &[], value)
}

/// The table, the column, the preferences and the sub-indexes, where the bytes are those of a catalogue.
fn parts(alloc: Global, value: &[u8]) -> Result<Option<(&[u8], u8, Prefs, Vec<SubIndex>)>, Memory>
    ensures parts { IfOk result (λ found. HasParts value.now (option_map (λ r. (r.0.now, r.1, r.2, r.3.items)) found)) }
    ensures set { IfOk result (λ found. IfSome found (λ r. can_be_set r.2.lexer ≡ true)) }
{
    let Some((table, at)) = read_text(value, 1) else {
        return Ok(None);
    };
    let Some(column) = value.get(at) else {
        return Ok(None);
    };
    let Some((prefs, next)) = Prefs::read(alloc, value, at + 2)? else {
        return Ok(None);
    };
    let Some((subs, _end)) = read_set(alloc, value, next)? else {
        return Ok(None);
    };
    Ok(Some((table, *column, prefs, subs)))
}

/// The catalogue that the bytes spell, if they spell one.
pub(crate) fn catalogue_in(alloc: Global, value: &[u8]) -> Result<Option<Catalogue>, Memory>
    ensures spells { IfOk result (λ found. SpellsCatalogue (Some value.now) found) }
    ensures set { IfOk result (λ found. IfSome found (λ x. can_be_set x.prefs.lexer ≡ true)) }
{
    let Some((table, column, prefs, subs)) = parts(alloc, value)? else {
        return Ok(None);
    };
    let Some(table) = Name::of_bytes(alloc, table)? else {
        return Ok(None);
    };
    if !are_sub_indexes(subs.as_slice()) {
        return Ok(None);
    }
    let target = Target { table, column };
    let subs = Listed::of(subs);
    let catalogue = Catalogue {
        target,
        prefs,
        subs,
    };
    keep_rules(&catalogue);
    let written = catalogue_value(alloc, &catalogue)?;
    if written.as_slice() == value {
        Ok(Some(catalogue))
    } else {
        Ok(None)
    }
}

/// The catalogue of this name. None where there is none, or its entry isn't that of a catalogue.
///
/// It takes one look-up, and never answers Full.
pub fn catalogue_of<K: Keeper>(
    alloc: Global,
    keeper: &mut K,
    index: &Name,
) -> Result<Option<Catalogue>, KeepFault>
    requires { (K.view keeper.old).ready }
    ensures set { IfOk result (λ found. IfSome found (λ x. can_be_set x.prefs.lexer ≡ true)) }
    ensures value { Finds K.view keeper.old result (λ m found. SpellsCatalogue (at m (key kind.Indexes index.now [])) found) }
    ensures reads { OnlyReads K.view keeper.old keeper.new result }
    ensures at_most { LooksAtMost K.view keeper.old keeper.new (look (bytes (key kind.Indexes index.now [])) None) }
{
    let Some(value) = fetch_entry(alloc, keeper, Kind::Indexes, index, &[])? else {
        return Ok(None);
    };
    let found = catalogue_in(alloc, &value)?;
    Ok(found)
}
