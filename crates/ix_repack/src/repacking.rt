//! Terms whose rows are put anew, one after the other.
#![tactic(auto, using(ct_keep::specs::laws::Composing::reads_on, ct_keep::specs::laws::Composing::reads_short))]

ghost use Rattle.std.specs.Prelude.{Some, IfOk, OnOk};
ghost use Rattle.ct_keep.specs.KeeperViews.{OnlyReads, Told};
ghost use Rattle.ix_repack.specs.Terms.{IsTermOrStart};
ghost use Rattle.ix_repack.specs.Putting.{AddsPuts, IsIndexRow, IsRowEntry};
ghost use Rattle.ix_repack.specs.Repacking.{RepacksRows, RepacksTerm};
ghost use Rattle.ix_repack.specs.Walking.{RepacksTerms};

use crate::dropping::drop_rows;
use crate::joining::join_rows;
use crate::terms::Term;
use crate::walking::next_stored;
use ct_base::{Name, Pair};
use ct_entry::{Kind, entries_of};
use ct_keep::{Batch, KeepFault, Keeper};
use ix_posting::Place;
use ix_rows::{TermRows, rows_in};
use std::alloc::Global;

/// How far terms were handled.
#[derive(Debug, Drop)]
pub struct Repacked {
    /// The last term that was handled; the place from which the call began, where none was.
    pub last: Option<Term>,
    /// Whether the index has rows of a term behind that.
    pub more: bool,
}

/// Adds the changes by which the rows of a term of this kind go, and the split of what stays of its posting list comes.
fn repack_rows<P: Place, K: Keeper>(
    alloc: Global,
    keeper: &mut K,
    batch: &mut Batch,
    kind: Kind,
    index: &Name,
    mapped: bool,
    term: &[u8],
) -> Result<(), KeepFault>
    requires { (K.view keeper.old).ready }
    ensures changes { Told K.view keeper.old (λ m. RepacksRows P.form m kind index.now term.now mapped batch.old batch.new result) }
    ensures puts { OnOk result (AddsPuts (IsRowEntry P.form kind index.now term.now) batch.old batch.new) }
    ensures reads { OnlyReads K.view keeper.old keeper.new result }
{
    let found = entries_of(alloc, keeper, kind, index, term)?;
    drop_rows(alloc, batch, kind, index, term, &found)?;
    let rows = rows_in::<P>(alloc, found)?;
    let mut joined = TermRows::new(alloc);
    join_rows(
        alloc,
        keeper,
        index,
        mapped,
        term,
        rows.as_slice(),
        &mut joined,
    )?;
    joined.into_changes(alloc, batch, kind, index)?;
    Ok(())
}

/// Adds the changes by which the rows of a term go, and the split of what stays of its posting list comes: of all documents, or of those
/// that are still rows of the table.
///
/// Its cost is the length of the rows; in memory it holds them twice, and one row decoded. With `mapped` it takes one look-up for each document.
fn repack_term<K: Keeper>(
    alloc: Global,
    keeper: &mut K,
    batch: &mut Batch,
    index: &Name,
    mapped: bool,
    term: &Term,
) -> Result<(), KeepFault>
    requires ready { (K.view keeper.old).ready }
    requires proper { IsTermOrStart (Some term.now) }
    ensures changes { Told K.view keeper.old (λ m. RepacksTerm m index.now mapped term.now batch.old batch.new result) }
    ensures puts { OnOk result (AddsPuts (IsIndexRow index.now) batch.old batch.new) }
    ensures reads { OnlyReads K.view keeper.old keeper.new result }
{
    match term {
        Term::Word(word) => repack_rows::<u32, K>(
            alloc,
            keeper,
            batch,
            Kind::Postings,
            index,
            mapped,
            word.as_slice(),
        ),
        Term::Section(section) => repack_rows::<Pair, K>(
            alloc,
            keeper,
            batch,
            Kind::Spans,
            index,
            mapped,
            section.as_slice(),
        ),
    }
}

/// Adds the changes that put the rows of terms of an index anew: of so many terms at most, those behind a place, or the first ones, in
/// the order of their keys. The rows of each go, and the split of its posting list comes: of all documents, or with `mapped` of
/// those that are still rows of the table; a term of which none is left has no row then.
///
/// It takes three look-ups at most for each term, besides those of its rows, and with `mapped` one for each document; its cost is the
/// length of the rows. In memory it holds one term's rows, and what it adds. It only reads, and so never answers Full. Memory is also
/// answered where a document has more than 32 megabytes of places under a term, which no text that is indexed has. At an error
/// the batch may have some of the changes.
pub fn repack_terms<K: Keeper>(
    alloc: Global,
    keeper: &mut K,
    batch: &mut Batch,
    index: &Name,
    mapped: bool,
    place: Option<Term>,
    most: u64,
) -> Result<Repacked, KeepFault>
    requires { (K.view keeper.old).ready }
    ensures changes { Told K.view keeper.old (λ m. RepacksTerms m index.now mapped place most batch.old batch.new result) }
    ensures puts { OnOk result (AddsPuts (IsIndexRow index.now) batch.old batch.new) }
    ensures last { IsTermOrStart place → IfOk result (λ r. IsTermOrStart r.last) }
    ensures reads { OnlyReads K.view keeper.old keeper.new result }
{
    let mut last = place;
    'terms: for _ in 0..most {
        let Some(term) = next_stored(alloc, keeper, index, &last)? else {
            return Ok(Repacked { last, more: false });
        };
        repack_term(alloc, keeper, batch, index, mapped, &term)?;
        last = Some(term);
    }
    let next = next_stored(alloc, keeper, index, &last)?;
    let more = next.is_some();
    Ok(Repacked { last, more })
}
