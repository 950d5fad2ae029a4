//! The rows of a term, joined.
#![tactic(auto, using(ct_keep::specs::laws::Composing::reads_on, ct_keep::specs::laws::Composing::reads_short))]

ghost use Rattle.std.specs.Prelude.{◌≡◌, OnOk};
ghost use Rattle.ct_keep.specs.KeeperViews.{OnlyReads, Told};
ghost use Rattle.ix_posting.specs.Lists.{posting_list};
ghost use Rattle.ix_posting.specs.Rows.{IsPostingRowOf};
ghost use Rattle.ix_rows.specs.laws.PlacedRows.{HasPlaces};
ghost use Rattle.ix_repack.specs.Putting.{AreJoined};
ghost use Rattle.ix_repack.specs.Repacking.{stays, joins_one, joins_all};

use crate::staying::does_stay;
use ct_base::Name;
use ct_keep::{KeepFault, Keeper};
use ix_posting::{EncodedRow, Place, RowDocument, put_places};
use ix_rows::TermRows;
use std::alloc::Global;

/// How many bytes the places of a document have at most. Those of a text that is indexed have fewer, whatever the term.
const PLACE_BYTES_LIMIT: usize = 1 << 25;

/// A document comes to a term, if it stays.
fn join_document<P: Place, K: Keeper>(
    alloc: Global,
    keeper: &mut K,
    index: &Name,
    mapped: bool,
    term: &[u8],
    document: &RowDocument<P>,
    out: &mut TermRows,
    places: &mut Vec<u8>,
) -> Result<(), KeepFault>
    requires ready { (K.view keeper.old).ready }
    requires places { HasPlaces P.form document.now }
    ensures joins { Told K.view keeper.old (λ m. OnOk result (out.new ≡ joins_one P.form (stays mapped m index.now) out.old term.now document.now)) }
    ensures grown { OnOk result (AreJoined P.form term.now out.old → AreJoined P.form term.now out.new) }
    ensures reads { OnlyReads K.view keeper.old keeper.new result }
{
    if !does_stay(alloc, keeper, index, mapped, document.document)? {
        return Ok(());
    }
    places.clear();
    put_places(places, document.places.as_slice())?;
    if places.len() > PLACE_BYTES_LIMIT {
        // a row of so many places fits into no entry
        return Err(KeepFault::Memory);
    }
    out.put(alloc, term, document.document, places)?;
    Ok(())
}

/// The documents of a row come to a term, those that stay.
fn join_row<P: Place, K: Keeper>(
    alloc: Global,
    keeper: &mut K,
    index: &Name,
    mapped: bool,
    term: &[u8],
    documents: &[RowDocument<P>],
    out: &mut TermRows,
    places: &mut Vec<u8>,
) -> Result<(), KeepFault>
    requires ready { (K.view keeper.old).ready }
    requires row { IsPostingRowOf P.form documents.now }
    ensures joins { Told K.view keeper.old (λ m. OnOk result (out.new ≡ joins_all P.form (stays mapped m index.now) out.old term.now documents.now)) }
    ensures grown { OnOk result (AreJoined P.form term.now out.old → AreJoined P.form term.now out.new) }
    ensures reads { OnlyReads K.view keeper.old keeper.new result }
{
    for document in documents {
        join_document(alloc, keeper, index, mapped, term, document, out, places)?;
    }
    Ok(())
}

/// The documents of all rows come to a term, those that stay. One row is decoded at a time.
pub(crate) fn join_rows<P: Place, K: Keeper>(
    alloc: Global,
    keeper: &mut K,
    index: &Name,
    mapped: bool,
    term: &[u8],
    rows: &[EncodedRow<P>],
    out: &mut TermRows,
) -> Result<(), KeepFault>
    requires { (K.view keeper.old).ready }
    ensures joins { Told K.view keeper.old (λ m. OnOk result (out.new ≡ joins_all P.form (stays mapped m index.now) out.old term.now (posting_list rows.now))) }
    ensures grown { OnOk result (AreJoined P.form term.now out.old → AreJoined P.form term.now out.new) }
    ensures reads { OnlyReads K.view keeper.old keeper.new result }
{
    let mut places = Vec::new(alloc);
    for encoded in rows {
        let row = encoded.decode(alloc)?;
        let documents = row.documents();
        join_row(
            alloc,
            keeper,
            index,
            mapped,
            term,
            documents,
            out,
            &mut places,
        )?;
    }
    Ok(())
}
