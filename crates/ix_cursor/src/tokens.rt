//! The tokens that a slot takes, in pairs of parts.
//!
//! A slot may take many thousand tokens. So they stand in a tree, of which a part is left alone as long as no token of it has a document
//! that is asked for: what a document costs is the number of tokens that it has times the logarithm of the number of all.

ghost use Rattle.std.specs.Prelude.{◌≡◌, ℕ, true, IfOk, OnOk};
ghost use Rattle.ix_spans.specs.Rising.{Rising};
ghost use Rattle.ix_lists.specs.Seeking.{SameFrom, BoundsFrom, has_any};
ghost use Rattle.ix_cursor.specs.Bounding.{earlier, is_behind};
ghost use Rattle.ix_cursor.specs.Passing.{tokens_passed};
ghost use Rattle.ix_cursor.specs.Tokens.{tokens_at};
ghost use Rattle.ix_cursor.specs.Unions.{union_at};

use crate::bounding::earlier;
use crate::passing::pass_list;
use ct_base::Memory;
use ix_lists::{Postings, merged};
use std::alloc::Global;

/// The tokens that a slot takes, each with its documents.
#[derive(Drop)]
pub(crate) enum Tokens {
    Nothing,
    One(Postings<u32>),
    /// The tokens of two parts, from a document on: those before it are passed, and with none all are.
    Both(Option<u32>, Box<Tokens>, Box<Tokens>),
}

/// Whether a document stands behind another, or there is none.
fn is_behind(from: Option<u32>, document: u32) -> bool
    ensures { result ≡ is_behind from document }
{
    match from {
        None => true,
        Some(from) => from > document,
    }
}

/// The tokens in a tree whose two parts have as many each. It goes as deep as the logarithm of their number.
pub(crate) fn tokens_of(alloc: Global, postings: Vec<Postings<u32>>) -> Result<Box<Tokens>, Memory>
    ensures { IfOk result (λ t. (d : ℕ) → tokens_at t.value d ≡ union_at postings.items d) }
{
    let mut postings = postings;
    if postings.len() > 1 {
        let middle = postings.len() / 2;
        let others = postings.split_off(middle)?;
        let first = tokens_of(alloc, postings)?;
        let second = tokens_of(alloc, others)?;
        return Ok(Box::new(alloc, Tokens::Both(Some(0), first, second))?);
    }
    match postings.pop() {
        None => Ok(Box::new(alloc, Tokens::Nothing)?),
        Some(only) => Ok(Box::new(alloc, Tokens::One(only))?),
    }
}

impl Tokens {
    /// Passes the documents before `to` of each token, and bounds those that are left. It leaves alone the parts that have none before it.
    pub(crate) fn pass(&mut self, alloc: Global, to: u32) -> Result<Option<u32>, Memory>
        ensures keeps { OnOk result (SameFrom to (tokens_at self.old) (tokens_at self.new)) }
        ensures passed { OnOk result (tokens_passed to self.new ≡ true) }
        ensures bound { IfOk result (λ bound. BoundsFrom to (λ d. has_any (tokens_at self.new d)) bound) }
    {
        match self {
            Tokens::Nothing => Ok(None),
            Tokens::One(list) => {
                let left = pass_list(list, to)?;
                Ok(left)
            }
            Tokens::Both(from, a, b) => {
                if is_behind(*from, to) {
                    return Ok(*from);
                }
                let first = a.pass(alloc, to)?;
                let second = b.pass(alloc, to)?;
                let bound = earlier(first, second);
                *from = bound;
                Ok(bound)
            }
        }
    }

    /// The positions that the tokens have in a document, rising and each once. It looks only at the parts that may have the document.
    pub(crate) fn positions(&self, alloc: Global, document: u32) -> Result<Vec<u32>, Memory>
        ensures positions { IfOk result (λ v. v.items ≡ tokens_at self.now document) }
        ensures rise { IfOk result (λ v. Rising v.items) }
    {
        match self {
            Tokens::Nothing => Ok(Vec::new(alloc)),
            Tokens::One(list) => list.positions_at(alloc, document),
            Tokens::Both(from, a, b) => {
                if is_behind(*from, document) {
                    return Ok(Vec::new(alloc));
                }
                let first = a.positions(alloc, document)?;
                let second = b.positions(alloc, document)?;
                merged(alloc, &first, second)
            }
        }
    }
}
