//! The slot of words that EQUIV joins.

ghost use Rattle.std.specs.Prelude.{◌≡◌, ◌++◌, [], ◌∷◌, true, false};
ghost use Rattle.std.specs.List.{list_all, flat_map};
ghost use Rattle.q_tree.specs.Limits.{has_wildcard, word_keeps_limit};
ghost use Rattle.q_reduce.specs.Faults.{word_faults};
ghost use Rattle.q_reduce.specs.Reducing.{joined_keys, joined_patterns, joined_slot, slot_of, word_keys};
ghost use Rattle.q_reduce.specs.Results.{Answers, context_of};

use crate::faults::ReduceFault;
use crate::keys::in_order;
use crate::patterns::pattern;
use crate::reducing::ReduceCtx;
use crate::words::{has_wildcard, word_tokens};
use ct_base::Listed;
use q_tree::{Pattern, Slot, Word};
use std::alloc::Global;
use tx_chars::Key;

/// The slot of the words: their keys in rising order and their patterns, without stopwords. Its cost is the square of their number.
pub(crate) fn joined_slot(
    alloc: Global,
    ctx: &ReduceCtx<'_>,
    words: &[Word],
) -> Result<Slot, ReduceFault>
    requires { list_all word_keeps_limit words.now ≡ true }
    ensures { Answers result (flat_map (word_faults (context_of ctx.now)) words.now) (λ slot. slot ≡ joined_slot (context_of ctx.now) words.now) }
{
    let mut keys = Vec::new(alloc);
    let mut patterns = Vec::new(alloc);
    let mut rest = words;
    while let [word, later @ ..] = rest {
        put_joined(alloc, ctx, &mut keys, &mut patterns, word)?;
        rest = later;
    }
    let keys = in_order(alloc, keys)?;
    Ok(slot_of(keys, patterns))
}

/// What takes these keys and patterns, or any word where there are none.
fn slot_of(keys: Vec<Key>, patterns: Vec<Pattern>) -> Slot
    ensures { result ≡ slot_of keys.items patterns.items }
{
    if keys.is_empty() && patterns.is_empty() {
        return Slot::Any;
    }
    Slot::Takes {
        keys: Listed::of(keys),
        patterns: Listed::of(patterns),
    }
}

/// Puts the pattern of a wildcard word, or the key of another one unless it is a stopword.
fn put_joined(
    alloc: Global,
    ctx: &ReduceCtx<'_>,
    keys: &mut Vec<Key>,
    patterns: &mut Vec<Pattern>,
    word: &Word,
) -> Result<(), ReduceFault>
    requires { word_keeps_limit word.now ≡ true }
    ensures { Answers result (word_faults (context_of ctx.now) word.now) (λ _.
        (keys.new.items ≡ keys.old.items ++ joined_keys (context_of ctx.now) word.now)
        × (patterns.new.items ≡ patterns.old.items ++ joined_patterns (context_of ctx.now) word.now)) }
{
    if has_wildcard(word.bits.as_slice()) {
        patterns.push(pattern(alloc, ctx, word)?)?;
        return Ok(());
    }
    let key = only_key(alloc, ctx, word)?;
    if !ctx.stop.has(&key) {
        keys.push(key)?;
    }
    Ok(())
}

/// The key of a word without wildcards, which must have exactly one token.
fn only_key(alloc: Global, ctx: &ReduceCtx<'_>, word: &Word) -> Result<Key, ReduceFault>
    requires short { word_keeps_limit word.now ≡ true }
    requires plain { has_wildcard word.now.bits ≡ false }
    ensures { Answers result (word_faults (context_of ctx.now) word.now) (λ key. word_keys (context_of ctx.now) word.now ≡ key ∷ []) }
{
    let mut tokens = word_tokens(alloc, ctx.lexer, word)?;
    if tokens.len() > 1 {
        return Err(ReduceFault::ManyTokens(word.place));
    }
    match tokens.pop() {
        Some(token) => Ok(token.key),
        None => Err(ReduceFault::ManyTokens(word.place)),
    }
}
