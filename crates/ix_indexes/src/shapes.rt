//! Which entries indexes have.

ghost use Rattle.std.specs.Prelude.{IfOk, IsTrue, ◌↔◌};
ghost use Rattle.ix_indexes.specs.Shapes.{IsIndexShape};

use cat_index::is_catalogue_shape;
use ct_base::Memory;
use ct_entry::Kind;
use ix_context::is_context_shape;
use rule_index::is_rule_shape;
use std::alloc::Global;

/// Whether a key of this kind may have this rest, and an entry of an index under it this value, whatever the kind of the index. No
/// other entry is looked at: there may be no such table, row or document.
///
/// Its cost is the length of both.
pub fn is_index_shape(alloc: Global, kind: Kind, part: &[u8], value: &[u8]) -> Result<bool, Memory>
    ensures { IfOk result (λ is. IsTrue is ↔ IsIndexShape kind part.now value.now) }
{
    if is_context_shape(alloc, kind, part, value)? {
        return Ok(true);
    }
    if is_catalogue_shape(alloc, kind, part, value)? {
        return Ok(true);
    }
    is_rule_shape(alloc, kind, part, value)
}
