//! Row keys as eight bytes whose order is that of the keys.

ghost use Rattle.std.specs.Prelude.{◌≡◌, ◌+◌, ◌≤◌, ◌↔◌, length, take, drop, IsSome, IfSome};
ghost use Rattle.ct_bytes.specs.RowKeys.{row_bytes};

use crate::numbers::cells_at;
use ct_base::RowKey;

/// What turns the sign bit, so that the least key becomes 0.
const SIGN_BIT: u64 = 1 << 63;

/// The bytes of a key: its 64 bits with the sign bit turned, the highest byte first.
pub fn row_key_bytes(key: RowKey) -> [u8; 8]
    ensures { result ≡ row_bytes key.0 }
{
    let raised = key.0.cast_unsigned().wrapping_add(SIGN_BIT);
    raised.to_be_bytes()
}

/// The key that has these bytes. Each eight bytes are those of one key.
pub fn row_key_of(bytes: [u8; 8]) -> RowKey
    ensures { row_bytes result.0 ≡ bytes }
{
    let raised = u64::from_be_bytes(bytes);
    RowKey(raised.wrapping_sub(SIGN_BIT).cast_signed())
}

/// The key that stands from `at` on.
pub fn read_row_key(bytes: &[u8], at: usize) -> Option<RowKey>
    ensures some { IfSome result (λ key. row_bytes key.0 ≡ take 8 (drop at bytes.now)) }
    ensures enough { IsSome result ↔ (at + 8 ≤ length bytes.now) }
{
    let cells = cells_at::<8>(bytes, at)?;
    Some(row_key_of(cells))
}
