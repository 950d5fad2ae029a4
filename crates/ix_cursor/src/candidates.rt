//! The documents that a query may score.

ghost use Rattle.std.specs.Prelude.{◌≡◌, ◌<◌, ◌^◌, ℕ, true, IfOk};
ghost use Rattle.q_tree.specs.ReducedQueries.{reduced_of};
ghost use Rattle.q_tree.specs.Soundness.{is_sound};
ghost use Rattle.ix_cursor.specs.Reading.{postings_read, FeedsRise};
ghost use Rattle.ix_cursor.specs.Candidates.{ahead, least_ahead, MovesOn, IsLeast, behind_found, Leaps};
ghost use Rattle.ix_cursor.specs.MayScore.{may_score};

use crate::building::build;
use crate::nodes::Node;
use crate::reading::Feeds;
use ct_base::{DocId, Memory};
use q_tree::Flat;
use std::alloc::Global;

/// The documents in which a query may score, by which documents its slots and sections are in. It takes up no position.
#[derive(Drop)]
pub struct Candidates {
    root: Box<Node>,
    /// The least document that wasn't passed; None behind the last one.
    from: Option<u32>,
}

/// The first document from one on in which the node may score. The node has passed those before it.
pub(crate) fn first_candidate(
    alloc: Global,
    root: &mut Node,
    from: u32,
) -> Result<Option<u32>, Memory>
    ensures { IfOk result (λ found. Leaps root.old root.new from found) }
{
    let mut at = from;
    'documents: loop {
        let Some(bound) = root.skip(alloc, at)? else {
            return Ok(None);
        };
        if bound <= at {
            return Ok(Some(at));
        }
        at = bound;
    }
}

impl Candidates {
    /// The documents in which the query may score, over what was read for it. It decodes no row yet, and shares the rows of the feeds.
    /// Its cost is, for each slot of the query, its length, the logarithm of the number of slots that were read, and the number of its
    /// tokens; it goes as deep as the query.
    pub fn build(alloc: Global, flat: &Flat, feeds: &Feeds) -> Result<Candidates, Memory>
        requires sound { is_sound (reduced_of flat.now) ≡ true }
        requires rows { FeedsRise feeds.now }
        ensures { IfOk result (λ c. (d : ℕ) → d < 2 ^ 32 → ahead c d ≡ may_score (reduced_of flat.now) (postings_read feeds.now d) 0) }
    {
        let root = build(alloc, feeds, flat, 0)?;
        Ok(Candidates {
            root,
            from: Some(0),
        })
    }

    /// The least that is left, which is greater than all that were given before; None where none is left, and from then on. It decodes rows one after
    /// the other, as far as it goes; Memory where one found none, and then it may only be dropped.
    pub fn next(&mut self, alloc: Global) -> Result<Option<DocId>, Memory>
        ensures least { IfOk result (λ found. IsLeast (ahead self.old) found) }
        ensures onward { IfOk result (λ found. MovesOn (least_ahead self.old) found (least_ahead self.new)) }
        ensures left { IfOk result (λ found. (d : ℕ) → d < 2 ^ 32 → ahead self.new d ≡ behind_found found (ahead self.old) d) }
    {
        let Some(from) = self.from else {
            return Ok(None);
        };
        match first_candidate(alloc, &mut self.root, from)? {
            None => {
                self.from = None;
                Ok(None)
            }
            Some(document) => {
                self.from = document.checked_add(1);
                Ok(Some(DocId(document)))
            }
        }
    }
}
