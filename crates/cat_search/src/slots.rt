//! Walks over the rows with a word that a slot takes.
#![tactic(auto, using(ct_keep::specs::laws::Composing::reads_on, ct_keep::specs::laws::Composing::reads_short, cat_walk::specs::laws::Sparing::spares_on))]

ghost use Rattle.std.specs.Prelude.{◌≡◌, ◌∷◌, [], true, IfOk, IfSome};
ghost use Rattle.ct_keep.specs.KeeperViews.{Finds, OnlyReads};
ghost use Rattle.ct_entry.specs.Keys.{counted_bytes, IsToken};
ghost use Rattle.q_tree.specs.declared.flats.Slot.TheVariants.{Takes};
ghost use Rattle.q_tree.specs.Soundness.{is_slot, takes_some};
ghost use Rattle.cat_walk.specs.Looks.{LooksUpNoText};
ghost use Rattle.cat_walk.specs.Walks.{has_rising_places, route_of};
ghost use Rattle.cat_search.specs.Words.{may_take};
ghost use Rattle.cat_search.specs.Walking.{IsWalkFor};

use cat_walk::{Walk, places_of};
use ct_base::{Bytes, Listed, Memory};
use ct_keep::{KeepFault, Keeper};
use q_tree::Slot;
use std::alloc::Global;
use tx_chars::Key;

/// A word as it stands in keys: its length in one byte, and its bytes.
fn word_bytes(alloc: Global, key: &Key) -> Result<Bytes, Memory>
    requires { IsToken key.now }
    ensures { IfOk result (λ word. word ≡ counted_bytes key.now) }
{
    let key = key.as_slice();
    let mut word = Vec::new(alloc);
    word.push(key.len() as u8)?;
    word.extend_from_slice(key)?;
    Ok(Listed::of(word))
}

/// The only key that a slot takes; None where it takes several, or has patterns.
fn only_key(slot: &Slot) -> Option<&Key>
    ensures { IfSome result (λ key. slot.now ≡ Takes (key.now ∷ []) []) }
{
    let Slot::Takes { keys, patterns } = slot else {
        return None;
    };
    match (keys.as_slice(), patterns.as_slice()) {
        ([key], []) => Some(key),
        _ => None,
    }
}

/// The walk over the rows with a word that the slot takes: of one key it looks at each place when it comes there, and of several keys and of
/// patterns it gathers the places first.
pub(crate) fn walk_of_slot<K: Keeper>(
    alloc: Global,
    keeper: &mut K,
    stem: &[u8],
    slot: &Slot,
) -> Result<Walk, KeepFault>
    requires ready { (K.view keeper.old).ready }
    requires slot { is_slot slot.now ≡ true }
    requires some { takes_some slot.now ≡ true }
    ensures walk { Finds K.view keeper.old result (λ m walk. IsWalkFor m stem.now (λ words. may_take words slot.now) (route_of walk)) }
    ensures rise { IfOk result (λ walk. has_rising_places (route_of walk) ≡ true) }
    ensures reads { OnlyReads K.view keeper.old keeper.new result }
    ensures spares { LooksUpNoText stem.now (K.view keeper.old) (K.view keeper.new) }
{
    if let Some(key) = only_key(slot) {
        return Ok(Walk::Word(word_bytes(alloc, key)?));
    }
    let places = places_of(alloc, keeper, stem, slot)?;
    Ok(Walk::Places(Listed::of(places)))
}
