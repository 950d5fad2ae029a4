//! Sets of characters.

ghost use Rattle.std.specs.Prelude.{◌≡◌, ◌≤◌, true, IfOk, length};
ghost use Rattle.std.specs.Str.{chars};
ghost use Rattle.tx_lexer.specs.CharSets.{has, place_of, rises, set_of};

use ct_base::{Memory, split_first};
use std::alloc::Global;
use std::marker::Model;

/// A set of characters, seen as them in rising order, each once.
#[derive(Clone, Debug, Drop)]
pub struct CharSet {
    chars: Vec<char>,
}

impl Model for CharSet {
    ghost use Rattle.std.specs.Prelude.{ℕ, List, ◌≡◌, true};
    ghost use Rattle.tx_lexer.specs.CharSets.{rises};

    ghost Value = { List ℕ };

    ghost view = { λ s. s.chars.items };

    ghost invariant = { λ s. rises s.chars.items ≡ true };
}

impl CharSet {
    ghost use Rattle.std.specs.Prelude.{[]};
    ghost use Rattle.tx_lexer.specs.CharSets.{with_char};

    /// The empty set. It takes no memory.
    pub fn new(alloc: Global) -> CharSet
        ensures { result ≡ [] }
    {
        CharSet {
            chars: Vec::new(alloc),
        }
    }

    /// The set of the characters of a text.
    pub fn of(alloc: Global, text: &str) -> Result<CharSet, Memory>
        ensures { IfOk result (λ s. s ≡ set_of (chars text.now)) }
    {
        let mut set = CharSet::new(alloc);
        let mut rest = text;
        while let Some((c, after)) = split_first(rest) {
            set.put(c)?;
            rest = after;
        }
        Ok(set)
    }

    fn put(&mut self, c: char) -> Result<(), Memory>
        ensures { IfOk result (λ _. self.new ≡ with_char c self.old) }
    {
        if !self.has(c) {
            let at = place_of(self.chars.as_slice(), c);
            self.chars.insert(at, c)?;
        }
        Ok(())
    }

    /// Whether the character belongs to the set. Its cost is the logarithm of their number.
    pub fn has(&self, c: char) -> bool
        ensures { result ≡ has self.now c }
    {
        self.chars.binary_search(&c).is_ok()
    }

    /// The characters in rising order.
    pub fn as_slice(&self) -> &[char]
        ensures chars { result.now ≡ self.now }
        ensures rises { rises self.now ≡ true }
    {
        self.chars.as_slice()
    }
}

/// How many of them at the beginning are less.
fn place_of(chars: &[char], c: char) -> usize
    ensures place { result ≡ place_of c chars.now }
    ensures within { result ≤ length chars.now }
{
    let mut at = 0;
    let mut rest = chars;
    while let [d, later @ ..] = rest {
        if *d >= c {
            break;
        }
        at += 1;
        rest = later;
    }
    at
}
