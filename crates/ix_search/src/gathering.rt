//! What a query reads of an index, and the rows that it finds there.

ghost use Rattle.std.specs.Prelude.{◌≡◌, true};
ghost use Rattle.q_tree.specs.ReducedQueries.{reduced_of};
ghost use Rattle.q_tree.specs.Soundness.{is_sound};
ghost use Rattle.ix_cursor.specs.Reading.{FeedsRise};
ghost use Rattle.ix_search.specs.Once.{feeds_once};

use crate::document_rows::DocumentRows;
use crate::hits::Hit;
use crate::walking::walk;
use ct_base::Memory;
use ix_cursor::{Cursor, Feeds};
use q_tree::Flat;
use std::alloc::Global;

/// What a query reads of an index: the rows of postings of its slots and sections, and the keys of the rows of its candidates among the
/// mapped documents.
#[derive(Drop)]
pub struct Gathered<'q> {
    flat: &'q Flat,
    feeds: Feeds,
    rows: DocumentRows,
    ghost sound: { is_sound (reduced_of flat.now) ≡ true },
    ghost rise: { FeedsRise feeds } by { feeds_once feeds },
}

impl<'q> Gathered<'q> {
    ghost use Rattle.ix_search.specs.Gathering.{GivesRows};
    ghost use Rattle.ix_search.specs.Hits.{hit_rows};
    ghost use Rattle.std.specs.Prelude.{ℤ, ℕ, List, IfOk};

    /// What was read for a query.
    pub(crate) fn of(flat: &'q Flat, feeds: Feeds, rows: DocumentRows) -> Gathered<'q>
        requires sound { is_sound (reduced_of flat.now) ≡ true }
        requires rise { FeedsRise feeds }
        ensures flat { result.flat.now ≡ flat.now }
        ensures feeds { result.feeds ≡ feeds }
        ensures rows { result.rows ≡ rows }
    {
        Gathered { flat, feeds, rows }
    }

    /// The rows that the query finds, with their scores, in order of their keys. Documents that aren't mapped are left out. It reads nothing,
    /// and changes nothing: each call gives the same.
    ///
    /// It decodes each row of postings up to the last document that it looks at, and takes for each document that it scores the logarithm
    /// of their number.
    pub fn hits(&self, alloc: Global) -> Result<Vec<Hit>, Memory>
        ensures { IfOk result (λ hits. (rows : List (ℤ × ℕ)) → GivesRows self.now rows → hit_rows hits.items ≡ rows) }
    {
        let mut cursor = Cursor::build(alloc, self.flat, &self.feeds)?;
        let scores = walk(alloc, &self.rows, &mut cursor)?;
        scores.into_hits(alloc)
    }
}
