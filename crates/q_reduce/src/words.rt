//! The tokens of words, and the slots of a word that stands by itself.

ghost use Rattle.std.specs.Prelude.{◌≡◌, ◌++◌, [], ◌∷◌, true, IfOk, OnOk, map};
ghost use Rattle.std.specs.Str.{chars};
ghost use Rattle.std.specs.String.{string_bytes};
ghost use Rattle.tx_lexer.specs.Tokens.{rules, tokens};
ghost use Rattle.tx_lexer.specs.declared.tokens.Token.{Token};
ghost use Rattle.q_tree.specs.Limits.{has_wildcard, word_keeps_limit};
ghost use Rattle.q_tree.specs.declared.flats.Slot.TheVariants.{Takes};
ghost use Rattle.q_reduce.specs.Reducing.{key_slot, pattern, word_slots, word_text};
ghost use Rattle.q_reduce.specs.Results.{context_of};

use crate::patterns::pattern;
use crate::reducing::ReduceCtx;
use ct_base::{Listed, Memory};
use q_tree::{Slot, Word, WordBit};
use std::alloc::Global;
use tx_chars::Key;
use tx_lexer::{LexerOptions, Token, tokens_by};

/// Whether one of the pieces is a wildcard.
pub(crate) fn has_wildcard(bits: &[WordBit]) -> bool
    ensures { result ≡ has_wildcard bits.now }
{
    let mut rest = bits;
    while let [bit, later @ ..] = rest {
        let WordBit::Chars(_) = bit else {
            return true;
        };
        rest = later;
    }
    false
}

/// The characters of all pieces.
pub(crate) fn word_text(alloc: Global, bits: &[WordBit]) -> Result<String, Memory>
    ensures { IfOk result (λ text. string_bytes text ≡ word_text bits.now) }
{
    let mut text = String::new(alloc);
    let mut rest = bits;
    while let [bit, later @ ..] = rest {
        if let WordBit::Chars(piece) = bit {
            text.push_str(piece.as_str())?;
        }
        rest = later;
    }
    Ok(text)
}

/// The tokens of a word without wildcards. A word of one piece isn't copied.
pub(crate) fn word_tokens(
    alloc: Global,
    lexer: &LexerOptions,
    word: &Word,
) -> Result<Vec<Token>, Memory>
    requires { word_keeps_limit word.now ≡ true }
    ensures { IfOk result (λ v. v.items ≡ tokens (rules lexer.now) (chars (word_text word.now.bits))) }
{
    if let [WordBit::Chars(text)] = word.bits.as_slice() {
        return tokens_by(alloc, lexer, text.as_str());
    }
    let text = word_text(alloc, word.bits.as_slice())?;
    tokens_by(alloc, lexer, text.as_str())
}

/// The slot of a token: any word where it is a stopword, else its key.
fn key_slot(alloc: Global, ctx: &ReduceCtx<'_>, key: Key) -> Result<Slot, Memory>
    ensures { IfOk result (λ slot. slot ≡ key_slot (context_of ctx.now) key) }
{
    if ctx.stop.has(&key) {
        return Ok(Slot::Any);
    }
    Ok(Slot::Takes {
        keys: Listed::empty(alloc).with(key)?,
        patterns: Listed::empty(alloc),
    })
}

/// Puts the slots of a word that stands by itself: one with its pattern, or one for each token.
pub(crate) fn put_word(
    alloc: Global,
    ctx: &ReduceCtx<'_>,
    slots: &mut Vec<Slot>,
    word: &Word,
) -> Result<(), Memory>
    requires { word_keeps_limit word.now ≡ true }
    ensures { OnOk result (slots.new.items ≡ slots.old.items ++ word_slots (context_of ctx.now) word.now) }
{
    if has_wildcard(word.bits.as_slice()) {
        slots.push(pattern_slot(alloc, ctx, word)?)?;
        return Ok(());
    }
    let tokens = word_tokens(alloc, ctx.lexer, word)?;
    put_tokens(alloc, ctx, slots, tokens)
}

/// The slot of a wildcard word.
fn pattern_slot(alloc: Global, ctx: &ReduceCtx<'_>, word: &Word) -> Result<Slot, Memory>
    ensures { IfOk result (λ slot. slot ≡ Takes [] (pattern (context_of ctx.now) word.now ∷ [])) }
{
    let pattern = pattern(alloc, ctx, word)?;
    Ok(Slot::Takes {
        keys: Listed::empty(alloc),
        patterns: Listed::empty(alloc).with(pattern)?,
    })
}

/// Puts a slot for each token.
pub(crate) fn put_tokens(
    alloc: Global,
    ctx: &ReduceCtx<'_>,
    slots: &mut Vec<Slot>,
    tokens: Vec<Token>,
) -> Result<(), Memory>
    ensures { OnOk result (slots.new.items ≡ slots.old.items ++ map (key_slot (context_of ctx.now)) (map (λ (t : Token). t.key) tokens.items)) }
{
    for token in tokens {
        slots.push(key_slot(alloc, ctx, token.key)?)?;
    }
    Ok(())
}
