//! The words of a text.

ghost use Rattle.std.specs.Prelude.{◌≡◌, ◌++◌, IfOk, OnOk, map};
ghost use Rattle.std.specs.Str.{chars};
ghost use Rattle.std.specs.String.{string_bytes};
ghost use Rattle.tx_prefs.specs.Requests.{words};
ghost use Rattle.tx_prefs.specs.RequestWords.{read_word, word_unless_empty};

use ct_base::{Memory, Text, push_char, split_first};
use std::alloc::Global;

/// The words of a text, which white space parts. Its cost is linear in the length of the text.
pub(crate) fn words_of(alloc: Global, text: &str) -> Result<Vec<Text>, Memory>
    ensures { IfOk result (λ v. map read_word v.items ≡ words (chars text.now)) }
{
    let mut words = Vec::new(alloc);
    let mut word = String::new(alloc);
    let mut rest = text;
    while let Some((c, after)) = split_first(rest) {
        if c.is_whitespace() {
            put_word(&mut words, word)?;
            word = String::new(alloc);
        } else {
            push_char(&mut word, c)?;
        }
        rest = after;
    }
    put_word(&mut words, word)?;
    Ok(words)
}

/// Puts a word at the end, unless it is empty.
fn put_word(words: &mut Vec<Text>, word: String) -> Result<(), Memory>
    ensures { OnOk result (map read_word words.new.items ≡ map read_word words.old.items ++ word_unless_empty (read_word (string_bytes word))) }
{
    if !word.as_str().is_empty() {
        words.push(Text::owned(word))?;
    }
    Ok(())
}
