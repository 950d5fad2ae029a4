//! The rules that stop keys keep.

ghost use Rattle.std.specs.Prelude.{◌≡◌, ◌∷◌, ◌&&◌};
ghost use Rattle.std.specs.List.{list_all};
ghost use Rattle.std.specs.Str.{is_utf8};
ghost use Rattle.tx_stop.specs.StopKeys.{are_stop_keys, is_stop_key, keys_rise};

use ct_base::TOKEN_LIMIT;
use std::str::from_utf8;
use tx_chars::Key;

/// How many stop keys there are at most, and how many words a stoplist has.
pub const STOP_LIMIT: usize = 4096;

/// Whether keys may be stop keys. Its cost is linear in their length.
pub(crate) fn are_stop_keys(keys: &[Key]) -> bool
    ensures { result ≡ are_stop_keys keys.now }
{
    keys.len() <= STOP_LIMIT && rise(keys) && are_keys(keys)
}

/// Whether they rise in the order of bytes.
fn rise(keys: &[Key]) -> bool
    ensures { result ≡ keys_rise keys.now }
{
    let mut rest = keys;
    while let [first, later @ ..] = rest {
        if !is_below(first, later) {
            return false;
        }
        rest = later;
    }
    true
}

/// Whether the key is less than the first of these.
fn is_below(key: &Key, later: &[Key]) -> bool
    ensures { (result && keys_rise later.now) ≡ keys_rise (key.now ∷ later.now) }
{
    match later {
        [] => true,
        [next, ..] => key.as_slice().cmp(next.as_slice()).is_lt(),
    }
}

fn are_keys(keys: &[Key]) -> bool
    ensures { result ≡ list_all is_stop_key keys.now }
{
    keys.iter().all(|key| is_stop_key(key.as_slice()))
}

fn is_stop_key(key: &[u8]) -> bool
    ensures { result ≡ is_stop_key key.now }
{
    !key.is_empty() && key.len() <= TOKEN_LIMIT && is_utf8(key)
}

fn is_utf8(bytes: &[u8]) -> bool
    ensures { result ≡ is_utf8 bytes.now }
{
    match from_utf8(bytes) {
        Ok(_) => true,
        Err(_) => false,
    }
}
