//! The documents that a query scores, in their order.

ghost use Rattle.std.specs.Prelude.{◌≡◌, ◌<◌, ◌^◌, ℕ, true, IfOk};
ghost use Rattle.q_tree.specs.ReducedQueries.{reduced_of};
ghost use Rattle.q_tree.specs.Soundness.{is_sound};
ghost use Rattle.q_tree.specs.Scores.{score, last_position};
ghost use Rattle.ix_cursor.specs.Reading.{postings_read, FeedsRise};
ghost use Rattle.ix_cursor.specs.Cursors.{remaining, present_score, cursor_from, IsFirstScored, from_found, score_found, FindsScored, LeapsOver};
ghost use Rattle.ix_cursor.specs.Candidates.{Leaps};

use crate::building::build;
use crate::candidates::first_candidate;
use crate::nodes::Node;
use crate::reading::Feeds;
use ct_base::{DocId, Memory};
use q_tree::Flat;
use std::alloc::Global;

/// Where a cursor stands: before the first document, at one with its score, or behind the last.
#[derive(Drop)]
enum Standing {
    Before,
    At { document: u32, score: u32 },
    After,
}

/// A cursor over the documents that a query scores.
#[derive(Drop)]
pub struct Cursor {
    root: Box<Node>,
    standing: Standing,
}

/// A document and its score.
#[derive(Drop)]
struct Scored {
    document: u32,
    score: u32,
}

/// The first document from one on in which the node may score; none before it has a score.
fn next_to_score(alloc: Global, root: &mut Node, from: u32) -> Result<Option<u32>, Memory>
    ensures candidate { IfOk result (λ found. Leaps root.old root.new from found) }
    ensures over { IfOk result (λ found. LeapsOver root.old root.new from found) }
{
    first_candidate(alloc, root, from)
}

/// The first document from one on that has a score above 0.
fn first_scored(alloc: Global, root: &mut Node, from: u32) -> Result<Option<Scored>, Memory>
    ensures { IfOk result (λ found. FindsScored root.old root.new from found) }
{
    let mut at = from;
    'documents: loop {
        let Some(document) = next_to_score(alloc, root, at)? else {
            return Ok(None);
        };
        root.see(alloc, document)?;
        let score = root.score(alloc, 1, u32::MAX)?;
        if score > 0 {
            return Ok(Some(Scored { document, score }));
        }
        if document == u32::MAX {
            return Ok(None);
        }
        at = document + 1;
    }
}

impl Cursor {
    /// A cursor before the first document that the query scores, over what was read for it. It decodes no row yet, and shares the rows
    /// of the feeds. Its cost is, for each slot of the query, its length, the logarithm of the number of slots that were read, and the
    /// number of its tokens; it goes as deep as the query.
    pub fn build(alloc: Global, flat: &Flat, feeds: &Feeds) -> Result<Cursor, Memory>
        requires sound { is_sound (reduced_of flat.now) ≡ true }
        requires rows { FeedsRise feeds.now }
        ensures start { IfOk result (λ c. present_score c ≡ 0) }
        ensures scores { IfOk result (λ c. (d : ℕ) → d < 2 ^ 32 → remaining c d ≡ score (reduced_of flat.now) (postings_read feeds.now d) 0 1 last_position) }
    {
        let root = build(alloc, feeds, flat, 0)?;
        Ok(Cursor {
            root,
            standing: Standing::Before,
        })
    }

    /// The least document that a cursor may move to when asked for one from `to` on.
    fn from(&self, to: u32) -> Option<u32>
        ensures { result ≡ cursor_from self.now to }
    {
        match &self.standing {
            Standing::Before => Some(to),
            Standing::At { document, .. } => Some(to.max(*document)),
            Standing::After => None,
        }
    }

    /// Moves to the least document that is at least `to`, not before the present one, and has a score above 0. None
    /// where none remains. It decodes rows one after the other, as far as it goes; Memory where one found none, and then it may only be
    /// dropped.
    pub fn advance(&mut self, alloc: Global, to: DocId) -> Result<Option<DocId>, Memory>
        ensures found { IfOk result (λ found. IsFirstScored (remaining self.old) to.0 found) }
        ensures left { IfOk result (λ found. (d : ℕ) → d < 2 ^ 32 → remaining self.new d ≡ from_found found (remaining self.old) d) }
        ensures score { IfOk result (λ found. present_score self.new ≡ score_found found (remaining self.old)) }
    {
        let Some(from) = self.from(to.0) else {
            return Ok(None);
        };
        match first_scored(alloc, &mut self.root, from)? {
            None => {
                self.standing = Standing::After;
                Ok(None)
            }
            Some(Scored { document, score }) => {
                self.standing = Standing::At { document, score };
                Ok(Some(DocId(document)))
            }
        }
    }

    /// The score of the present document; 0 before the first and behind the last.
    pub fn score(&self) -> u32
        ensures { result ≡ present_score self.now }
    {
        match &self.standing {
            Standing::At { score, .. } => *score,
            _ => 0,
        }
    }
}
