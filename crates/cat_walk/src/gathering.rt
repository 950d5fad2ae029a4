//! The places of all words that a slot takes.
#![tactic(auto, using(ct_keep::specs::laws::Composing::reads_on, ct_keep::specs::laws::Composing::reads_short, crate::specs::laws::Sparing::spares_on))]

ghost use Rattle.std.specs.Prelude.{◌≡◌, ◌≤◌, ◌&&◌, ◌++◌, ◌∷◌, ℕ, List, true, length, nat_le, bytes_eq, IsTrue, IfOk};
ghost use Rattle.std.specs.Str.{chars, is_utf8};
ghost use Rattle.ct_keep.specs.KeeperViews.{Finds, OnlyReads};
ghost use Rattle.q_tree.specs.Slots.{has_key, has_pattern, matches, takes};
ghost use Rattle.cat_walk.specs.Gathering.{AddsPlaces, ArePlacesOf};
ghost use Rattle.cat_walk.specs.Looks.{LooksUpNoText};
ghost use Rattle.cat_walk.specs.Places.{is_listed, places_rise};
ghost use Rattle.cat_walk.specs.Scanned.{length_places};

use crate::scanning::{is_utf8, put_places_in, put_rests};
use ct_base::{Bytes, Memory, TOKEN_LIMIT};
use ct_keep::{KeepFault, Keeper, scan};
use q_match::{leading_literal, leading_literal_law};
use q_tree::{Pattern, PatternBit, Slot};
use std::alloc::Global;
use tx_chars::Key;

/// What the keys begin with of the entries of words of `size` bytes that begin with a literal.
fn word_prefix(alloc: Global, stem: &[u8], size: u8, literal: &[u8]) -> Result<Vec<u8>, Memory>
    ensures { IfOk result (λ prefix. prefix.items ≡ stem.now ++ size ∷ literal.now) }
{
    let mut prefix = Vec::from_slice(alloc, stem)?;
    prefix.push(size)?;
    prefix.extend_from_slice(literal)?;
    Ok(prefix)
}

/// Appends the places of the words of `size` bytes that have a pattern.
fn put_size<K: Keeper>(
    alloc: Global,
    keeper: &mut K,
    stem: &[u8],
    pattern: &[PatternBit],
    literal: &[u8],
    size: u8,
    places: &mut Vec<Bytes>,
) -> Result<(), KeepFault>
    requires ready { (K.view keeper.old).ready }
    requires long { length literal.now ≤ size }
    ensures places { Finds K.view keeper.old result (λ m _. places.new.items ≡ places.old.items ++ length_places m stem.now pattern.now literal.now size) }
    ensures reads { OnlyReads K.view keeper.old keeper.new result }
    ensures spares { LooksUpNoText stem.now (K.view keeper.old) (K.view keeper.new) }
{
    let prefix = word_prefix(alloc, stem, size, literal)?;
    let entries = scan(alloc, keeper, &prefix)?;
    let more = size as usize - literal.len();
    put_places_in(alloc, pattern, literal, more, &entries, places)?;
    Ok(())
}

/// Appends the places of the words that have a pattern.
fn put_pattern<K: Keeper>(
    alloc: Global,
    keeper: &mut K,
    stem: &[u8],
    pattern: &[PatternBit],
    places: &mut Vec<Bytes>,
) -> Result<(), KeepFault>
    requires { (K.view keeper.old).ready }
    ensures places { Finds K.view keeper.old result (λ m _. AddsPlaces m stem.now (λ word. matches pattern.now (chars word)) places.old.items places.new.items) }
    ensures reads { OnlyReads K.view keeper.old keeper.new result }
    ensures spares { LooksUpNoText stem.now (K.view keeper.old) (K.view keeper.new) }
{
    leading_literal_law();
    let literal = leading_literal(pattern);
    let mut size = literal.len().max(1);
    while size <= TOKEN_LIMIT {
        let bytes = literal.as_bytes();
        put_size(alloc, keeper, stem, pattern, bytes, size as u8, places)?;
        size += 1;
    }
    Ok(())
}

/// Whether a key can be that of an entry: a text of 1 to 255 bytes.
fn is_word(key: &[u8]) -> bool
    ensures is { result ≡ (is_utf8 key.now && (nat_le 1 (length key.now) && nat_le (length key.now) 255)) }
    ensures short { IsTrue result → length key.now ≤ 255 }
{
    is_utf8(key) && 1 <= key.len() && key.len() <= TOKEN_LIMIT
}

/// Appends the places of a word.
fn put_key<K: Keeper>(
    alloc: Global,
    keeper: &mut K,
    stem: &[u8],
    key: &[u8],
    places: &mut Vec<Bytes>,
) -> Result<(), KeepFault>
    requires { (K.view keeper.old).ready }
    ensures places { Finds K.view keeper.old result (λ m _. AddsPlaces m stem.now (λ word. bytes_eq key.now word) places.old.items places.new.items) }
    ensures reads { OnlyReads K.view keeper.old keeper.new result }
    ensures spares { LooksUpNoText stem.now (K.view keeper.old) (K.view keeper.new) }
{
    if !is_word(key) {
        return Ok(());
    }
    let prefix = word_prefix(alloc, stem, key.len() as u8, key)?;
    let entries = scan(alloc, keeper, &prefix)?;
    put_rests(alloc, &entries, places)?;
    Ok(())
}

/// Appends the places of some words.
fn put_keys<K: Keeper>(
    alloc: Global,
    keeper: &mut K,
    stem: &[u8],
    keys: &[Key],
    places: &mut Vec<Bytes>,
) -> Result<(), KeepFault>
    requires { (K.view keeper.old).ready }
    ensures places { Finds K.view keeper.old result (λ m _. AddsPlaces m stem.now (λ word. has_key keys.now word) places.old.items places.new.items) }
    ensures reads { OnlyReads K.view keeper.old keeper.new result }
    ensures spares { LooksUpNoText stem.now (K.view keeper.old) (K.view keeper.new) }
{
    let mut rest = keys;
    while let [key, later @ ..] = rest {
        put_key(alloc, keeper, stem, key.as_slice(), places)?;
        rest = later;
    }
    Ok(())
}

/// Appends the places of the words that have one of some patterns.
fn put_patterns<K: Keeper>(
    alloc: Global,
    keeper: &mut K,
    stem: &[u8],
    patterns: &[Pattern],
    places: &mut Vec<Bytes>,
) -> Result<(), KeepFault>
    requires { (K.view keeper.old).ready }
    ensures places { Finds K.view keeper.old result (λ m _. AddsPlaces m stem.now (λ word. has_pattern patterns.now word) places.old.items places.new.items) }
    ensures reads { OnlyReads K.view keeper.old keeper.new result }
    ensures spares { LooksUpNoText stem.now (K.view keeper.old) (K.view keeper.new) }
{
    let mut rest = patterns;
    while let [pattern, later @ ..] = rest {
        put_pattern(alloc, keeper, stem, pattern.as_slice(), places)?;
        rest = later;
    }
    Ok(())
}

/// Appends the places at which a word that a slot takes has an entry. The stem is what the keys of the sub-index begin with.
///
/// A key has the length of its word before the word. So it makes a scan for each length, of the entries of the words that begin with the
/// leading literal of a pattern, and one for each key. It costs what it scans; and for each word of a pattern's scans the length of the pattern
/// times that of the word. It holds what one scan found beside the places. It reads no text, and never answers Full.
pub fn put_slot<K: Keeper>(
    alloc: Global,
    keeper: &mut K,
    stem: &[u8],
    slot: &Slot,
    places: &mut Vec<Bytes>,
) -> Result<(), KeepFault>
    requires { (K.view keeper.old).ready }
    ensures places { Finds K.view keeper.old result (λ m _. AddsPlaces m stem.now (λ word. takes slot.now word) places.old.items places.new.items) }
    ensures reads { OnlyReads K.view keeper.old keeper.new result }
    ensures spares { LooksUpNoText stem.now (K.view keeper.old) (K.view keeper.new) }
{
    match slot {
        Slot::Any => put_pattern(alloc, keeper, stem, &[PatternBit::Many], places),
        Slot::Takes { keys, patterns } => {
            put_keys(alloc, keeper, stem, keys.as_slice(), places)?;
            put_patterns(alloc, keeper, stem, patterns.as_slice(), places)
        }
    }
}

/// Puts places in order, each once. It takes no memory, and time in proportion to their number where they are in order already.
pub(crate) fn sort_places(places: &mut Vec<Bytes>)
    ensures rise { places_rise places.new.items ≡ true }
    ensures same { (place : List ℕ) → is_listed places.new.items place ≡ is_listed places.old.items place }
{
    places.sort_unstable_by(|a, b| a.as_slice().cmp(b.as_slice()));
    places.dedup_by(|a, b| a.as_slice() == b.as_slice());
}

/// The places at which a word that a slot takes has an entry: in order, each once. It costs what `put_slot` does, and putting the places in order.
pub fn places_of<K: Keeper>(
    alloc: Global,
    keeper: &mut K,
    stem: &[u8],
    slot: &Slot,
) -> Result<Vec<Bytes>, KeepFault>
    requires { (K.view keeper.old).ready }
    ensures rise { IfOk result (λ places. places_rise places.items ≡ true) }
    ensures places { Finds K.view keeper.old result (λ m places. ArePlacesOf m stem.now slot.now places.items) }
    ensures reads { OnlyReads K.view keeper.old keeper.new result }
    ensures spares { LooksUpNoText stem.now (K.view keeper.old) (K.view keeper.new) }
{
    let mut places = Vec::new(alloc);
    put_slot(alloc, keeper, stem, slot, &mut places)?;
    sort_places(&mut places);
    Ok(places)
}
