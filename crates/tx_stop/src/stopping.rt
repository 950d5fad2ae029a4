//! Stopwords by their keys.

ghost use Rattle.std.specs.Prelude.{◌≡◌, ◌+◌, ◌≤◌, true, IfOk, OnOk, IfSome, is_some, length, map};
ghost use Rattle.std.specs.Str.{chars, is_utf8};
ghost use Rattle.ct_base.specs.Limits.{token_limit};
ghost use Rattle.tx_chars.specs.Keys.{key_of};
ghost use Rattle.tx_stop.specs.StopKeys.{are_stop_keys, is_stop, stop_keys, stop_limit, with_key};

use crate::rules::are_stop_keys;
use crate::searching::search;
use ct_base::{Memory, Text};
use std::alloc::Global;
use std::marker::Model;
use tx_chars::{Key, key};

/// The keys of stopwords, seen as their list in rising order. There are at most 4096, and each has 1 to 255 bytes of UTF-8.
#[derive(Debug, Drop)]
pub struct StopKeys {
    keys: Vec<Key>,
}

impl Model for StopKeys {
    ghost use Rattle.std.specs.Prelude.{ℕ, List, ◌≡◌, true};
    ghost use Rattle.tx_stop.specs.StopKeys.{are_stop_keys};

    ghost Value = { List (List ℕ) };

    ghost view = { λ s. s.keys.items };

    ghost invariant = { λ s. are_stop_keys s.keys.items ≡ true };
}

impl StopKeys {
    ghost use Rattle.std.specs.Prelude.{[]};

    /// No stop keys. It takes no memory.
    pub fn none(alloc: Global) -> StopKeys
        ensures { result ≡ [] }
    {
        StopKeys {
            keys: Vec::new(alloc),
        }
    }

    /// The keys of stopwords, made by these flags of a lexer. Empty keys are left out, and equal ones stand once. Beside making the
    /// keys, its cost is at worst the square of their number, since a key that is put moves those after it.
    pub fn new(
        alloc: Global,
        words: &[Text],
        base_letter: bool,
        mixed_case: bool,
    ) -> Result<StopKeys, Memory>
        requires few { length words.now ≤ stop_limit }
        ensures { IfOk result (λ s. s ≡ stop_keys base_letter mixed_case (map chars words.now)) }
    {
        let mut keys = StopKeys::none(alloc);
        let mut rest = words;
        while let [word, later @ ..] = rest {
            keys.put(key_of(alloc, word, base_letter, mixed_case)?)?;
            rest = later;
        }
        Ok(keys)
    }

    /// Puts a key, unless it is empty or there already.
    fn put(&mut self, key: Key) -> Result<(), Memory>
        requires few { length self.old + 1 ≤ stop_limit }
        requires short { length key ≤ token_limit }
        requires text { is_utf8 key ≡ true }
        ensures { OnOk result (self.new ≡ with_key key self.old) }
    {
        if key.as_slice().is_empty() {
            return Ok(());
        }
        if let Err(place) = search(self.keys.as_slice(), key.as_slice()) {
            self.keys.insert(place, key)?;
        }
        Ok(())
    }

    /// Keys that rise, just as they are and without a copy.
    pub fn of_keys(keys: Vec<Key>) -> StopKeys
        requires { are_stop_keys keys.items ≡ true }
        ensures { result ≡ keys.items }
    {
        StopKeys { keys }
    }

    /// The stop keys that these are, just as they are and without a copy; None exactly where they don't rise, are too many, or one
    /// of them isn't 1 to 255 bytes of UTF-8. Its cost is the length of all keys.
    pub fn read_keys(keys: Vec<Key>) -> Option<StopKeys>
        ensures rules { is_some result ≡ are_stop_keys keys.items }
        ensures keys { IfSome result (λ s. s ≡ keys.items) }
    {
        if are_stop_keys(keys.as_slice()) {
            Some(StopKeys { keys })
        } else {
            None
        }
    }

    /// The keys in rising order.
    pub fn keys(&self) -> &[Key]
        ensures keys { result.now ≡ self.now }
        ensures rules { are_stop_keys self.now ≡ true }
    {
        self.keys.as_slice()
    }

    /// Whether the key is one of them. Its cost is the logarithm of their number.
    pub fn has(&self, key: &Key) -> bool
        ensures { result ≡ is_stop self.now key.now }
    {
        search(self.keys.as_slice(), key.as_slice()).is_ok()
    }
}

/// The key of a word.
fn key_of(alloc: Global, word: &Text, base_letter: bool, mixed_case: bool) -> Result<Key, Memory>
    ensures key { IfOk result (λ k. k ≡ key_of base_letter mixed_case (chars word.now)) }
    ensures short { IfOk result (λ k. length k ≤ token_limit) }
    ensures text { IfOk result (λ k. is_utf8 k ≡ true) }
{
    key(alloc, word.as_str(), base_letter, mixed_case)
}
