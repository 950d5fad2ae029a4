//! Which entries a store has.

ghost use Rattle.db_state.specs.Shapes.{IsStoreEntry};

use ct_base::Memory;
use ct_entry::key_parts;
use ct_keep::Shape;
use ix_indexes::is_index_shape;
use std::alloc::Global;
use tb_table::is_table_shape;
use th_store::is_thesaurus_shape;
use tx_prefs::is_pref_shape;

/// The shape of a store: each entry is one of a table, of an index, of a preference, a stoplist, a section group or an index
/// set, or of a thesaurus, with a key and a value of its kind's form (docs/STORE.md). To tell of an entry costs the length of its key
/// and its value.
#[derive(Drop)]
pub struct StoreShape;

impl Shape for StoreShape {
    ghost is_well = { λ _. IsStoreEntry };

    fn well(&self, alloc: Global, key: &[u8], value: &[u8]) -> Result<bool, Memory> {
        let Some((kind, _owner, part)) = key_parts(alloc, key)? else {
            return Ok(false);
        };
        if is_table_shape(alloc, kind, part, value)? {
            return Ok(true);
        }
        if is_index_shape(alloc, kind, part, value)? {
            return Ok(true);
        }
        if is_pref_shape(alloc, kind, part, value)? {
            return Ok(true);
        }
        Ok(is_thesaurus_shape(kind, part, value))
    }
}
