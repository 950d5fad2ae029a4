//! Numbers of fixed width, the highest byte first.

ghost use Rattle.std.specs.Prelude.{◌≡◌, ◌+◌, ◌≤◌, ◌++◌, ◌↔◌, length, take, drop, IsSome, IfSome, OnOk, OnErr};
ghost use Rattle.std.specs.Int.{w16, w32, to_be_bytes};

use ct_base::Memory;

/// The bytes from `at` on, as many as the array has.
pub(crate) fn cells_at<const N: usize>(bytes: &[u8], at: usize) -> Option<[u8; N]>
    ensures some { IfSome result (λ cells. cells ≡ take N (drop at bytes.now)) }
    ensures enough { IsSome result ↔ (at + N ≤ length bytes.now) }
{
    let (cells, _) = bytes.get(at..)?.split_first_chunk::<N>()?;
    Some(*cells)
}

/// Puts two bytes at the end.
pub fn put_u16(out: &mut Vec<u8>, n: u16) -> Result<(), Memory>
    ensures ok { OnOk result (out.new.items ≡ out.old.items ++ to_be_bytes w16 n) }
    ensures err { OnErr result (out.new.items ≡ out.old.items) }
{
    out.extend_from_slice(&n.to_be_bytes())?;
    Ok(())
}

/// Puts four bytes at the end.
pub fn put_u32(out: &mut Vec<u8>, n: u32) -> Result<(), Memory>
    ensures ok { OnOk result (out.new.items ≡ out.old.items ++ to_be_bytes w32 n) }
    ensures err { OnErr result (out.new.items ≡ out.old.items) }
{
    out.extend_from_slice(&n.to_be_bytes())?;
    Ok(())
}

/// The number that two bytes spell from `at` on.
pub fn read_u16(bytes: &[u8], at: usize) -> Option<u16>
    ensures some { IfSome result (λ n. to_be_bytes w16 n ≡ take 2 (drop at bytes.now)) }
    ensures enough { IsSome result ↔ (at + 2 ≤ length bytes.now) }
{
    let cells = cells_at::<2>(bytes, at)?;
    Some(u16::from_be_bytes(cells))
}

/// The number that four bytes spell from `at` on.
pub fn read_u32(bytes: &[u8], at: usize) -> Option<u32>
    ensures some { IfSome result (λ n. to_be_bytes w32 n ≡ take 4 (drop at bytes.now)) }
    ensures enough { IsSome result ↔ (at + 4 ≤ length bytes.now) }
{
    let cells = cells_at::<4>(bytes, at)?;
    Some(u32::from_be_bytes(cells))
}
