//! Lists whose documents are passed.

ghost use Rattle.std.specs.Prelude.{◌≡◌, true, IfOk, OnOk};
ghost use Rattle.ix_lists.specs.Documents.{places_at};
ghost use Rattle.ix_lists.specs.Seeking.{SameFrom, BoundsFrom, has_any};
ghost use Rattle.ix_cursor.specs.Passing.{list_passed};

use ct_base::Memory;
use ix_lists::Postings;
use ix_posting::Place;

/// Passes the documents before `to` of a token or a section, and gives the first that is left.
pub(crate) fn pass_list<P: Place>(list: &mut Postings<P>, to: u32) -> Result<Option<u32>, Memory>
    ensures keeps { OnOk result (SameFrom to (places_at list.old) (places_at list.new)) }
    ensures passed { OnOk result (list_passed to list.new ≡ true) }
    ensures bound { IfOk result (λ bound. BoundsFrom to (λ d. has_any (places_at list.new d)) bound) }
{
    let first = list.skip(to)?;
    Ok(first)
}
