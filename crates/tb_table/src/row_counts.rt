//! How many rows a table has.

ghost use Rattle.std.specs.Prelude.{◌≡◌, IfOk, length};
ghost use Rattle.ct_keep.specs.KeeperViews.{Told};
ghost use Rattle.ct_entry.specs.declared.kinds.Kind.TheVariants as kind;
ghost use Rattle.ct_entry.specs.Keys.{HasKeysOnly};
ghost use Rattle.ct_entry.specs.Listings.{rows_under};

use ct_base::{Memory, Name};
use ct_entry::{Kind, entry_count};
use ct_keep::Keeper;
use std::alloc::Global;

/// How many rows a table has. It makes no look-up; its cost is the logarithm of the number of names that have entries.
pub fn row_count<K: Keeper>(alloc: Global, keeper: &K, table: &Name) -> Result<u64, Memory>
    requires { (K.view keeper.now).ready }
    ensures { Told K.view keeper.now (λ m. HasKeysOnly m → IfOk result (λ count. count ≡ length (rows_under kind.RowNumbers table.now m))) }
{
    entry_count(alloc, keeper, Kind::RowNumbers, table)
}
