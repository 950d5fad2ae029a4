//! The patterns of wildcard words.

ghost use Rattle.std.specs.Prelude.{◌≡◌, ◌++◌, IfOk, OnOk, filter, not};
ghost use Rattle.std.specs.Str.{chars, IsUtf8};
ghost use Rattle.std.specs.String.{string_bytes};
ghost use Rattle.tx_lexer.specs.CharSets.{has};
ghost use Rattle.q_tree.specs.declared.queries.WordBit.TheVariants.{Chars};
ghost use Rattle.q_reduce.specs.Reducing.{literal, pattern, pattern_bit};
ghost use Rattle.q_reduce.specs.Results.{context_of};

use crate::reducing::ReduceCtx;
use ct_base::{Listed, Memory, Text, push_char, split_first};
use q_tree::{Pattern, PatternBit, Word, WordBit};
use std::alloc::Global;
use std::str::from_utf8;
use tx_chars::{Key, key};
use tx_lexer::CharSet;

/// The pattern of a wildcard word: each run of its characters by its key, and the wildcards between.
pub(crate) fn pattern(alloc: Global, ctx: &ReduceCtx<'_>, word: &Word) -> Result<Pattern, Memory>
    ensures { IfOk result (λ found. found ≡ pattern (context_of ctx.now) word.now) }
{
    let mut bits = Vec::new(alloc);
    let mut rest = word.bits.as_slice();
    while let [bit, later @ ..] = rest {
        put_bit(alloc, ctx, &mut bits, bit)?;
        rest = later;
    }
    Ok(Listed::of(bits))
}

/// Puts what a piece of a word is in a pattern, which is nothing where its key is empty.
fn put_bit(
    alloc: Global,
    ctx: &ReduceCtx<'_>,
    bits: &mut Vec<PatternBit>,
    bit: &WordBit,
) -> Result<(), Memory>
    ensures { OnOk result (bits.new.items ≡ bits.old.items ++ pattern_bit (context_of ctx.now) bit.now) }
{
    match bit {
        WordBit::One => bits.push(PatternBit::One)?,
        WordBit::Many => bits.push(PatternBit::Many)?,
        WordBit::Chars(text) => {
            let key = literal_key(alloc, ctx, text.as_str())?;
            put_literal(alloc, bits, &key)?;
        }
    }
    Ok(())
}

/// The key of a run of characters, without skipjoins.
fn literal_key(alloc: Global, ctx: &ReduceCtx<'_>, text: &str) -> Result<Key, Memory>
    ensures key { IfOk result (λ k. literal k ≡ pattern_bit (context_of ctx.now) (Chars text.now)) }
    ensures text { IfOk result (λ k. IsUtf8 k) }
{
    let kept = without(alloc, text, &ctx.lexer.skipjoins)?;
    key(
        alloc,
        kept.as_str(),
        ctx.lexer.base_letter,
        ctx.lexer.mixed_case,
    )
}

/// The text without the characters of a set.
fn without(alloc: Global, text: &str, set: &CharSet) -> Result<String, Memory>
    ensures { IfOk result (λ kept. chars (string_bytes kept) ≡ filter (λ c. not (has set.now c)) (chars text.now)) }
{
    let mut kept = String::new(alloc);
    let mut rest = text;
    while let Some((c, after)) = split_first(rest) {
        if !set.has(c) {
            push_char(&mut kept, c)?;
        }
        rest = after;
    }
    Ok(kept)
}

/// Puts a key as a piece of a pattern, unless it is empty.
fn put_literal(alloc: Global, bits: &mut Vec<PatternBit>, key: &Key) -> Result<(), Memory>
    requires { IsUtf8 key.now }
    ensures { OnOk result (bits.new.items ≡ bits.old.items ++ literal key.now) }
{
    if key.as_slice().is_empty() {
        return Ok(());
    }
    bits.push(PatternBit::Chars(key_text(alloc, key)?))?;
    Ok(())
}

/// A copy of the key as a text.
fn key_text(alloc: Global, key: &Key) -> Result<Text, Memory>
    requires { IsUtf8 key.now }
    ensures { IfOk result (λ text. text ≡ key.now) }
{
    match from_utf8(key.as_slice()) {
        Ok(text) => Text::of(alloc, text),
        Err(_) => unreachable!(),
    }
}
