//! The rows of the tokens that a pattern takes, read from a keeper.
#![tactic(auto, using(ct_keep::specs::laws::Composing::reads_on, ct_keep::specs::laws::Composing::reads_short))]

ghost use Rattle.std.specs.Prelude.{◌≡◌, ◌≤◌, ◌++◌, length, IfOk, OnOk};
ghost use Rattle.ct_keep.specs.KeeperViews.{Finds, OnlyReads, Told};
ghost use Rattle.ct_keep.specs.Looks.{LooksAtMost};
ghost use Rattle.ix_tokens.specs.Looking.{length_looks, pattern_looks};
ghost use Rattle.ix_tokens.specs.Rising.{EachRises};
ghost use Rattle.ix_tokens.specs.Scanned.{AreRowsOfLength, matches_count};
ghost use Rattle.ix_tokens.specs.Tokens.{AreMatchesIn, tokens_prefix};

use crate::taking::rows_of_entries;
use ct_base::{Memory, Name, TOKEN_LIMIT};
use ct_entry::{Kind, entries_of};
use ct_keep::{KeepFault, Keeper};
use ix_posting::EncodedRows;
use q_match::{leading_literal, leading_literal_law};
use q_tree::PatternBit;
use std::alloc::Global;

/// What follows the index in the keys of the rows of tokens of `size` bytes that begin with a literal.
fn tokens_prefix(alloc: Global, stream: u8, size: u8, literal: &[u8]) -> Result<Vec<u8>, Memory>
    ensures { IfOk result (λ prefix. prefix.items ≡ tokens_prefix stream size literal.now) }
{
    let mut prefix = Vec::new(alloc);
    prefix.push(stream)?;
    prefix.push(size)?;
    prefix.extend_from_slice(literal)?;
    Ok(prefix)
}

/// The rows of the tokens of `size` bytes that have a pattern, each by itself.
fn rows_of_size<K: Keeper>(
    alloc: Global,
    keeper: &mut K,
    index: &Name,
    stream: u8,
    pattern: &[PatternBit],
    literal: &[u8],
    size: u8,
) -> Result<Vec<EncodedRows<u32>>, KeepFault>
    requires ready { (K.view keeper.old).ready }
    requires long { length literal.now ≤ size }
    ensures rise { IfOk result (λ tokens. EachRises tokens.items) }
    ensures rows { Finds K.view keeper.old result (λ m tokens. AreRowsOfLength m index.now stream pattern.now literal.now size tokens.items) }
    ensures reads { OnlyReads K.view keeper.old keeper.new result }
    ensures at_most { Told K.view keeper.old (λ m. LooksAtMost K.view keeper.old keeper.new (length_looks m index.now stream literal.now size)) }
{
    let prefix = tokens_prefix(alloc, stream, size, literal)?;
    let entries = entries_of(alloc, keeper, Kind::Postings, index, &prefix)?;
    let more = size as usize - literal.len();
    Ok(rows_of_entries(alloc, pattern, literal, more, entries)?)
}

/// Puts the rows of some tokens behind those of others.
fn put_all(tokens: &mut Vec<EncodedRows<u32>>, found: Vec<EncodedRows<u32>>) -> Result<(), Memory>
    ensures { OnOk result (tokens.new.items ≡ tokens.old.items ++ found.items) }
{
    let mut found = found;
    tokens.append(&mut found)?;
    Ok(())
}

/// The rows of all stored tokens of a stream that have a pattern, each row by itself. Their number has no limit.
///
/// A key has the length of its token before the token. So it makes a scan for each length, of the rows of the tokens that begin with the
/// leading literal of the pattern. It costs what it scans, and for each token among these the length of the pattern times that of the
/// token; and beside what it gives it holds what one scan found. It never answers Full.
pub fn rows_of_pattern<K: Keeper>(
    alloc: Global,
    keeper: &mut K,
    index: &Name,
    stream: u8,
    pattern: &[PatternBit],
) -> Result<Vec<EncodedRows<u32>>, KeepFault>
    requires { (K.view keeper.old).ready }
    ensures rise { IfOk result (λ tokens. EachRises tokens.items) }
    ensures rows { Finds K.view keeper.old result (λ m tokens. AreMatchesIn m index.now stream pattern.now tokens.items) }
    ensures count { Finds K.view keeper.old result (λ m tokens. length tokens.items ≡ matches_count m index.now stream pattern.now) }
    ensures reads { OnlyReads K.view keeper.old keeper.new result }
    ensures at_most { Told K.view keeper.old (λ m. LooksAtMost K.view keeper.old keeper.new (pattern_looks m index.now stream pattern.now)) }
{
    leading_literal_law();
    let literal = leading_literal(pattern);
    let mut tokens = Vec::new(alloc);
    let mut size = literal.len().max(1);
    while size <= TOKEN_LIMIT {
        let found = rows_of_size(
            alloc,
            keeper,
            index,
            stream,
            pattern,
            literal.as_bytes(),
            size as u8,
        )?;
        put_all(&mut tokens, found)?;
        size += 1;
    }
    Ok(tokens)
}
