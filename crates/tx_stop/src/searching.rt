//! Keys among keys that rise.

ghost use Rattle.std.specs.Prelude.{◌≡◌, ◌≤◌, true, IfErr, is_ok, length};
ghost use Rattle.tx_stop.specs.StopKeys.{is_stop, keys_rise, key_place};

use tx_chars::Key;

/// Where the key stands among keys that rise in the order of bytes, or else where it belongs. Its cost is the logarithm of their
/// number.
pub(crate) fn search(keys: &[Key], key: &[u8]) -> Result<usize, usize>
    requires { keys_rise keys.now ≡ true }
    ensures found { is_ok result ≡ is_stop keys.now key.now }
    ensures place { IfErr result (λ i. i ≡ key_place key.now keys.now) }
    ensures within { IfErr result (λ i. i ≤ length keys.now) }
{
    keys.binary_search_by(|stored| stored.as_slice().cmp(key))
}
