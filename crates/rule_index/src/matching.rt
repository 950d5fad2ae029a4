//! Which rules hold of a document.
#![tactic(auto, using(ct_keep::specs::laws::Composing::reads_on, ct_keep::specs::laws::Composing::reads_short, ct_keep::specs::laws::Looks::rises_none))]

ghost use Rattle.std.specs.Prelude.{◌≡◌, ◌++◌, ◌≤◌, ◌∷◌, [], length, map, true, None, IfOk, OnOk};
ghost use Rattle.std.specs.Bool.{if◌then◌else◌};
ghost use Rattle.std.specs.List.{list_all};
ghost use Rattle.std.specs.List.Sorted.{IsPermutation};
ghost use Rattle.ct_keep.specs.KeeperViews.{Finds, OnlyReads, Told};
ghost use Rattle.ct_keep.specs.Looks.{LooksAtMost, no_looks, look};
ghost use Rattle.ct_entry.specs.declared.kinds.Kind.TheVariants as kind;
ghost use Rattle.ct_entry.specs.Keys.{bytes, key, row_part};
ghost use Rattle.ct_entry.specs.Listings.{rows_of};
ghost use Rattle.q_tree.specs.Soundness.{is_key};
ghost use Rattle.q_stored.specs.Anchoring.{document_keys};
ghost use Rattle.ix_cursor.specs.Alone.{AreDocumentEntries};
ghost use Rattle.rule_index.specs.Matching.{AddsFirst, AddsRows, AreEntriesUnder, AreFiled, CanBeScored, begins_with, doc_words, document_postings, filed, held_of, is_filed_under, looked_for, match_looks, matched, postings_of_all, row_holds, rule_looks};
ghost use Rattle.rule_index.specs.Sees.{SeesRules, ToldRules};

use crate::entries::rule_query;
use crate::found_rows::FoundRows;
use crate::rules::Rules;
use crate::scoring::has_score;
use ct_base::{Memory, Name, RowKey};
use ct_entry::{Kind, entries_of, row_in};
use ct_keep::{KeepFault, Keeper};
use std::alloc::Global;
use tx_chars::Key;
use tx_document::{DocView, Entry, WordView};

/// The rest with which the keys of the entries under an anchor begin: its length, and its bytes.
fn anchor_prefix(alloc: Global, anchor: &[u8]) -> Result<Vec<u8>, Memory>
    requires { length anchor.now ≤ 255 }
    ensures { IfOk result (λ prefix. prefix.items ≡ length anchor.now ∷ anchor.now) }
{
    let mut prefix = Vec::new(alloc);
    prefix.push(anchor.len() as u8)?;
    prefix.extend_from_slice(anchor)?;
    Ok(prefix)
}

/// The entries of rules under an anchor, of which this is the length and the bytes. It asks for no text, no posting and no rule.
fn entries_under<K: Keeper>(
    alloc: Global,
    keeper: &mut K,
    index: &Name,
    prefix: &[u8],
) -> Result<Vec<(Vec<u8>, Vec<u8>)>, KeepFault>
    requires ready { (K.view keeper.old).ready }
    ensures entries { Finds K.view keeper.old result (λ m found. AreEntriesUnder index.now prefix.now m found.items) }
    ensures reads { OnlyReads K.view keeper.old keeper.new result }
    ensures at_most { Told K.view keeper.old (λ m. LooksAtMost K.view keeper.old keeper.new no_looks) }
{
    entries_of(alloc, keeper, Kind::Anchors, index, prefix)
}

/// The row keys that the rests of entries spell, in their order.
fn rows_in(alloc: Global, found: &[(Vec<u8>, Vec<u8>)]) -> Result<Vec<RowKey>, Memory>
    ensures { IfOk result (λ rows. map (λ r. r.0) rows.items ≡ rows_of (map (λ e. (e.0.items, e.1.items)) found.now)) }
{
    let mut rows = Vec::new(alloc);
    for (rest, _value) in found {
        if let Some(row) = row_in(rest) {
            rows.push(row)?;
        }
    }
    Ok(rows)
}

/// Adds the rows whose rules are filed under an anchor.
///
/// It takes a look-up for each of them and one more, and asks for no rule.
fn add_filed<K: Keeper>(
    alloc: Global,
    keeper: &mut K,
    rows: &mut FoundRows,
    index: &Name,
    anchor: &[u8],
) -> Result<(), KeepFault>
    requires ready { (K.view keeper.old).ready }
    requires short { length anchor.now ≤ 255 }
    ensures rows { Told K.view keeper.old (λ m. OnOk result (AddsRows rows.old rows.new (λ r. is_filed_under index.now m r anchor.now))) }
    ensures reads { OnlyReads K.view keeper.old keeper.new result }
    ensures at_most { Told K.view keeper.old (λ m. LooksAtMost K.view keeper.old keeper.new no_looks) }
{
    let prefix = anchor_prefix(alloc, anchor)?;
    let start = prefix.as_slice();
    let found = entries_under(alloc, keeper, index, start)?;
    let listed = found.as_slice();
    let keys = rows_in(alloc, listed)?;
    let more = keys.as_slice();
    rows.put_all(more)?;
    Ok(())
}

/// Adds the key of a word to some, unless it is a stopword.
fn add_key(alloc: Global, keys: &mut Vec<Key>, word: &WordView) -> Result<(), Memory>
    ensures { OnOk result (keys.new.items ≡ keys.old.items ++ document_keys (doc_words (word.now ∷ []))) }
{
    if let Some(key) = &word.key {
        keys.push(Key::of(Vec::from_slice(alloc, key.as_slice())?))?;
    }
    Ok(())
}

/// The keys of words, in the order of the words.
fn keys_in(alloc: Global, words: &[WordView]) -> Result<Vec<Key>, Memory>
    ensures { IfOk result (λ keys. keys.items ≡ document_keys (doc_words words.now)) }
{
    let mut keys = Vec::new(alloc);
    let mut rest = words;
    while let [word, later @ ..] = rest {
        add_key(alloc, &mut keys, word)?;
        rest = later;
    }
    Ok(keys)
}

/// Puts keys in the order of their bytes, so that equal ones are neighbours. It takes no memory.
fn sort_keys(keys: &mut Vec<Key>)
    ensures { IsPermutation keys.old.items keys.new.items }
{
    keys.sort_unstable_by(|a, b| a.as_slice().cmp(b.as_slice()));
}

/// Whether the first of these keys is this one.
fn begins_with(keys: &[Key], key: &[u8]) -> bool
    ensures { result ≡ begins_with keys.now key.now }
{
    match keys {
        [] => false,
        [first, ..] => first.as_slice() == key,
    }
}

/// Adds the rows whose rules are filed under a key, unless the next one is the same.
fn add_next<K: Keeper>(
    alloc: Global,
    keeper: &mut K,
    rows: &mut FoundRows,
    index: &Name,
    key: &[u8],
    later: &[Key],
) -> Result<(), KeepFault>
    requires ready { (K.view keeper.old).ready }
    requires short { length key.now ≤ 255 }
    ensures rows { Told K.view keeper.old (λ m. OnOk result (AddsFirst index.now m key.now later.now rows.old rows.new)) }
    ensures reads { OnlyReads K.view keeper.old keeper.new result }
    ensures at_most { Told K.view keeper.old (λ m. LooksAtMost K.view keeper.old keeper.new no_looks) }
{
    if begins_with(later, key) {
        return Ok(());
    }
    add_filed(alloc, keeper, rows, index, key)
}

/// The rows whose rules are filed under one of these keys, or found everywhere. Under a key that stands several times one after the
/// other is looked once.
fn filed_rows<K: Keeper>(
    alloc: Global,
    keeper: &mut K,
    index: &Name,
    keys: &[Key],
) -> Result<FoundRows, KeepFault>
    requires ready { (K.view keeper.old).ready }
    requires keys { list_all is_key keys.now ≡ true }
    ensures rows { Finds K.view keeper.old result (λ m rows. AreFiled index.now m ([] ∷ keys.now) rows) }
    ensures reads { OnlyReads K.view keeper.old keeper.new result }
    ensures at_most { Told K.view keeper.old (λ m. LooksAtMost K.view keeper.old keeper.new no_looks) }
{
    let mut rows = FoundRows::new(alloc);
    add_filed(alloc, keeper, &mut rows, index, &[])?;
    let mut rest = keys;
    'each: while let Some((key, later)) = rest.split_first() {
        add_next(alloc, keeper, &mut rows, index, key.as_slice(), later)?;
        rest = later;
    }
    Ok(rows)
}

/// The rows whose rules are filed under a key of a document, or found everywhere, in order of their keys.
fn rows_for<K: Keeper>(
    alloc: Global,
    keeper: &mut K,
    index: &Name,
    document: &DocView,
) -> Result<Vec<RowKey>, KeepFault>
    requires ready { (K.view keeper.old).ready }
    requires document { CanBeScored document.now }
    ensures rows { SeesRules K.view keeper.old index.now result (λ x rows. map (λ r. r.0) rows.items ≡ filed x (looked_for document.now)) }
    ensures reads { OnlyReads K.view keeper.old keeper.new result }
    ensures at_most { Told K.view keeper.old (λ m. LooksAtMost K.view keeper.old keeper.new no_looks) }
{
    let words = document.words.as_slice();
    let mut keys = keys_in(alloc, words)?;
    sort_keys(&mut keys);
    let sorted = keys.as_slice();
    let found = filed_rows(alloc, keeper, index, sorted)?;
    let rows = found.into_keys(alloc)?;
    Ok(rows)
}

/// Whether the rule of a row holds of the document that has just these entries. It takes one look-up.
fn holds<K: Keeper>(
    alloc: Global,
    keeper: &mut K,
    index: &Name,
    row: RowKey,
    entries: &[Entry],
) -> Result<bool, KeepFault>
    requires ready { (K.view keeper.old).ready }
    requires entries { AreDocumentEntries entries.now }
    ensures holds { SeesRules K.view keeper.old index.now result (λ x holds. holds ≡ row_holds x (postings_of_all entries.now) row.0) }
    ensures reads { OnlyReads K.view keeper.old keeper.new result }
    ensures at_most { LooksAtMost K.view keeper.old keeper.new (look (bytes (key kind.Rules index.now (row_part row.0))) None) }
{
    let query = rule_query(alloc, keeper, index, row)?;
    let holds = has_score(alloc, &query, entries)?;
    Ok(holds)
}

/// Adds a row, if its rule holds.
fn put_if(rows: &mut Vec<RowKey>, holds: bool, row: RowKey) -> Result<(), Memory>
    ensures { OnOk result (rows.new.items ≡ rows.old.items ++ (if holds then row ∷ [] else [])) }
{
    if holds {
        rows.push(row)?;
    }
    Ok(())
}

/// Those of these rows whose rules hold of the document that has just these entries, in their order. It takes a look-up for each.
fn held_rows<K: Keeper>(
    alloc: Global,
    keeper: &mut K,
    index: &Name,
    rows: &[RowKey],
    entries: &[Entry],
) -> Result<Vec<RowKey>, KeepFault>
    requires ready { (K.view keeper.old).ready }
    requires entries { AreDocumentEntries entries.now }
    ensures rows { SeesRules K.view keeper.old index.now result (λ x held. map (λ r. r.0) held.items ≡ held_of x (postings_of_all entries.now) rows.now) }
    ensures reads { OnlyReads K.view keeper.old keeper.new result }
    ensures at_most { LooksAtMost K.view keeper.old keeper.new (rule_looks (length rows.now)) }
{
    let mut held = Vec::new(alloc);
    let mut rest = rows;
    'each: while let Some((row, later)) = rest.split_first() {
        let is_held = holds(alloc, keeper, index, *row, entries)?;
        put_if(&mut held, is_held, *row)?;
        rest = later;
    }
    Ok(held)
}

impl Rules {
    /// The rules of an index that hold of a document, in order of their keys: those that were taken, and whose query has a score above 0
    /// on it. The document is as the index's preferences read it.
    ///
    /// Looked at are the rules that are filed under a key of the document or everywhere, each of them once. It costs what scoring them
    /// does, a look-up for each key of the document, and one for each key of it under which such a rule is filed.
    pub fn matches<K: Keeper>(
        alloc: Global,
        keeper: &mut K,
        index: &Name,
        document: &DocView,
    ) -> Result<Vec<RowKey>, KeepFault>
        requires ready { (K.view keeper.old).ready }
        requires document { CanBeScored document.now }
        ensures rows { SeesRules K.view keeper.old index.now result (λ x rows. map (λ r. r.0) rows.items ≡ matched x (document_postings document.now)) }
        ensures reads { OnlyReads K.view keeper.old keeper.new result }
        ensures at_most { ToldRules K.view keeper.old index.now (λ m t x. LooksAtMost K.view keeper.old keeper.new (match_looks x document.now)) }
    {
        let entries = document.entries(alloc)?;
        let rows = rows_for(alloc, keeper, index, document)?;
        let places = entries.as_slice();
        let keys = rows.as_slice();
        held_rows(alloc, keeper, index, keys, places)
    }
}
