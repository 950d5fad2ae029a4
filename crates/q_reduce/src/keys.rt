//! Keys in rising order, each once.

ghost use Rattle.std.specs.Prelude.{◌≡◌, ◌≤◌, IfOk, OnOk, bytes_eq, length};
ghost use Rattle.tx_stop.specs.StopKeys.{is_stop, key_place, with_key};
ghost use Rattle.q_reduce.specs.Reducing.{in_order};

use ct_base::Memory;
use std::alloc::Global;
use tx_chars::Key;

/// The keys in rising order, each once and none that is empty. Its cost is the square of their number.
pub(crate) fn in_order(alloc: Global, keys: Vec<Key>) -> Result<Vec<Key>, Memory>
    ensures { IfOk result (λ v. v.items ≡ in_order keys.items) }
{
    let mut rest = keys;
    let mut sorted = Vec::new(alloc);
    while let Some(key) = rest.pop() {
        put_key(&mut sorted, key)?;
    }
    Ok(sorted)
}

/// Puts a key at its place, unless it is empty or there already.
fn put_key(keys: &mut Vec<Key>, key: Key) -> Result<(), Memory>
    ensures { OnOk result (keys.new.items ≡ with_key key keys.old.items) }
{
    if key.as_slice().is_empty() || has_key(keys.as_slice(), &key) {
        return Ok(());
    }
    let place = key_place(keys.as_slice(), &key);
    keys.insert(place, key)?;
    Ok(())
}

fn has_key(keys: &[Key], key: &Key) -> bool
    ensures { result ≡ is_stop keys.now key.now }
{
    keys.iter().any(|other| is_same(other, key))
}

fn is_same(a: &Key, b: &Key) -> bool
    ensures { result ≡ bytes_eq a.now b.now }
{
    a.as_slice() == b.as_slice()
}

/// How many of the keys at the beginning are less.
fn key_place(keys: &[Key], key: &Key) -> usize
    ensures place { result ≡ key_place key.now keys.now }
    ensures within { result ≤ length keys.now }
{
    let mut place = 0;
    let mut rest = keys;
    while let [first, later @ ..] = rest {
        if !first.as_slice().cmp(key.as_slice()).is_lt() {
            break;
        }
        place += 1;
        rest = later;
    }
    place
}
