//! From a text to its lexemes.

ghost use Rattle.std.specs.Prelude.{◌≡◌, ◌<◌, ◌≤◌, ◌↔◌, map, length, false, [], ◌∷◌, IfOk, IfSome, IsTrue, MatchOption, Some, None};
ghost use Rattle.std.specs.Char.{is_ascii_digit, to_ascii_lowercase};
ghost use Rattle.std.specs.Str.{chars};
ghost use Rattle.std.specs.String.{string_bytes};
ghost use Rattle.ct_base.specs.Characters.{is_first};
ghost use Rattle.ct_base.specs.Names.{is_name_byte};
ghost use Rattle.st_parse.specs.Keywords.{keyword_of};
ghost use Rattle.st_parse.specs.Lexemes.{run, after_run, is_in_line, name_lexeme, keyword_or_name, text_at, sign_of, sign_at, lexeme_at, begins_comment, lexemes};
ghost use Rattle.st_parse.specs.Reading.{LexGives};
ghost use Rattle.st_parse.specs.declared.lexing.LexFault.TheVariants.{NoLexeme, Memory as NoMemory};

use crate::lexemes::{KEYWORDS, Keyword, Lexeme, Symbol};
use ct_base::{Memory, Name, NameFault, Text, push_ascii, push_char, split_first};
use std::alloc::{AllocFailed, Global};

/// Why a text gave no lexemes.
#[derive(Clone, Copy)]
pub enum LexFault {
    /// No lexeme begins at some place.
    NoLexeme,
    Memory,
}

impl From<Memory> for LexFault {
    ghost from_gives = { λ _ fault. fault ≡ NoMemory };

    fn from(_: Memory) -> LexFault {
        LexFault::Memory
    }
}

impl<T: Drop> From<AllocFailed<T>> for LexFault {
    ghost from_gives = { λ _ fault. fault ≡ NoMemory };

    fn from(_: AllocFailed<T>) -> LexFault {
        LexFault::Memory
    }
}

/// Whether the first character is this one.
fn is_next(text: &str, wanted: char) -> bool
    ensures { result ≡ is_first wanted (chars text.now) }
{
    match split_first(text) {
        None => false,
        Some((c, _)) => c == wanted,
    }
}

/// Whether the character may stand in a name after its first letter.
fn is_name_char(c: char) -> bool
    ensures { result ≡ is_name_byte c }
{
    c.is_ascii_alphanumeric() || c == '_' || c == '$' || c == '#'
}

/// The keyword that a word in lower case is.
fn keyword_of(word: &str) -> Option<Keyword>
    ensures { result ≡ keyword_of word.now }
{
    let mut rest = KEYWORDS;
    'keywords: while let [(keyword, spelling), others @ ..] = rest {
        if *spelling == word {
            return Some(*keyword);
        }
        rest = others;
    }
    None
}

/// The word at the beginning in lower case, and what follows it.
fn read_word(alloc: Global, text: &str) -> Result<(String, &str), Memory>
    ensures word { IfOk result (λ x. string_bytes x.0 ≡ map to_ascii_lowercase (run is_name_byte (chars text.now))) }
    ensures rest { IfOk result (λ x. chars x.1.now ≡ after_run is_name_byte (chars text.now)) }
{
    let mut word = String::new(alloc);
    let mut rest = text;
    while let Some((c, after)) = split_first(rest) {
        if !is_name_char(c) {
            break;
        }
        push_ascii(&mut word, c.to_ascii_lowercase())?;
        rest = after;
    }
    Ok((word, rest))
}

/// The digits at the beginning, and what follows them.
fn read_digits(alloc: Global, text: &str) -> Result<(String, &str), Memory>
    ensures digits { IfOk result (λ x. string_bytes x.0 ≡ run is_ascii_digit (chars text.now)) }
    ensures rest { IfOk result (λ x. chars x.1.now ≡ after_run is_ascii_digit (chars text.now)) }
{
    let mut digits = String::new(alloc);
    let mut rest = text;
    while let Some((c, after)) = split_first(rest) {
        if !c.is_ascii_digit() {
            break;
        }
        push_ascii(&mut digits, c)?;
        rest = after;
    }
    Ok((digits, rest))
}

/// What follows the line: a newline, or nothing. It takes no memory, and its cost is the length of the line.
pub fn after_line(text: &str) -> &str
    ensures { chars result.now ≡ after_run is_in_line (chars text.now) }
{
    let mut rest = text;
    while let Some((c, after)) = split_first(rest) {
        if c == '\n' {
            break;
        }
        rest = after;
    }
    rest
}

/// What follows the quote at the beginning, if one stands there.
fn after_quote(text: &str) -> Option<&str>
    ensures { MatchOption result (is_first 39 (chars text.now) ≡ false) (λ next. chars text.now ≡ 39 ∷ chars next.now) }
{
    match split_first(text) {
        Some(('\'', next)) => Some(next),
        _ => None,
    }
}

/// The text that is open here, and what follows its end.
fn read_text(alloc: Global, text: &str) -> Result<(String, &str), LexFault>
    ensures gives { LexGives (λ x. (string_bytes x.0, chars x.1.now)) result (text_at [] (chars text.now)) }
    ensures shorter { IfOk result (λ x. length (chars x.1.now) < length (chars text.now)) }
{
    let mut read = String::new(alloc);
    let mut rest = text;
    while let Some((c, after)) = split_first(rest) {
        if c != '\'' {
            push_char(&mut read, c)?;
            rest = after;
            continue;
        }
        match after_quote(after) {
            Some(next) => {
                push_ascii(&mut read, '\'')?;
                rest = next;
            }
            None => return Ok((read, after)),
        }
    }
    Err(LexFault::NoLexeme)
}

/// The name that a word is.
fn name_of(alloc: Global, word: &str) -> Result<Lexeme, LexFault>
    requires { map to_ascii_lowercase word.now ≡ word.now }
    ensures { LexGives (λ l. l) result (name_lexeme word.now) }
{
    match Name::read(alloc, word) {
        Ok(name) => Ok(Lexeme::Name(name)),
        Err(NameFault::NotAName) => Err(LexFault::NoLexeme),
        Err(NameFault::Memory) => Err(LexFault::Memory),
    }
}

/// The keyword or the name that a word in lower case is.
fn keyword_or_name(alloc: Global, word: &str) -> Result<Lexeme, LexFault>
    requires { map to_ascii_lowercase word.now ≡ word.now }
    ensures { LexGives (λ l. l) result (keyword_or_name word.now) }
{
    match keyword_of(word) {
        Some(keyword) => Ok(Lexeme::Word(keyword)),
        None => name_of(alloc, word),
    }
}

fn sign_of(c: char) -> Option<Symbol>
    ensures { result ≡ sign_of c }
{
    match c {
        '(' => Some(Symbol::Open),
        ')' => Some(Symbol::Close),
        ',' => Some(Symbol::Comma),
        '.' => Some(Symbol::Dot),
        '*' => Some(Symbol::Star),
        '=' => Some(Symbol::Equal),
        '<' => Some(Symbol::Less),
        '>' => Some(Symbol::Greater),
        '-' => Some(Symbol::Minus),
        _ => None,
    }
}

/// The sign that the character is, with a `=` after it where one stands there, and what follows it.
fn sign_at(c: char, text: &str) -> Option<(Symbol, &str)>
    ensures sign { MatchOption result (sign_at c (chars text.now) ≡ None) (λ x. sign_at c (chars text.now) ≡ Some (x.0, chars x.1.now)) }
    ensures shorter { IfSome result (λ x. length (chars x.1.now) ≤ length (chars text.now)) }
{
    match split_first(text) {
        Some(('=', rest)) if c == '<' => Some((Symbol::AtMost, rest)),
        Some(('=', rest)) if c == '>' => Some((Symbol::AtLeast, rest)),
        _ => Some((sign_of(c)?, text)),
    }
}

/// The lexeme at the beginning, and what follows it. Its cost is the length of the lexeme.
pub fn lexeme_at(alloc: Global, text: &str) -> Result<(Lexeme, &str), LexFault>
    ensures gives { LexGives (λ x. (x.0, chars x.1.now)) result (lexeme_at (chars text.now)) }
    ensures shorter { IfOk result (λ x. length (chars x.1.now) < length (chars text.now)) }
{
    let Some((c, after)) = split_first(text) else {
        return Err(LexFault::NoLexeme);
    };
    if c.is_ascii_alphabetic() {
        let (word, rest) = read_word(alloc, text)?;
        Ok((keyword_or_name(alloc, word.as_str())?, rest))
    } else if c.is_ascii_digit() {
        let (digits, rest) = read_digits(alloc, text)?;
        Ok((Lexeme::Number(Text::owned(digits)), rest))
    } else if c == '\'' {
        let (read, rest) = read_text(alloc, after)?;
        Ok((Lexeme::Text(Text::owned(read)), rest))
    } else {
        match sign_at(c, after) {
            Some((sign, rest)) => Ok((Lexeme::Sign(sign), rest)),
            None => Err(LexFault::NoLexeme),
        }
    }
}

/// Whether a comment begins with this character and what follows it.
pub fn begins_comment(c: char, after: &str) -> bool
    ensures { result ≡ begins_comment c (chars after.now) }
{
    c == '-' && is_next(after, '-')
}

/// The lexemes of the text. Its cost is the length of the text.
pub(crate) fn lex(alloc: Global, text: &str) -> Result<Vec<Lexeme>, LexFault>
    ensures { LexGives (λ v. v.items) result (lexemes (chars text.now)) }
{
    let mut lexemes = Vec::new(alloc);
    let mut rest = text;
    while let Some((c, after)) = split_first(rest) {
        if c.is_whitespace() {
            rest = after;
            continue;
        }
        if begins_comment(c, after) {
            rest = after_line(after);
            continue;
        }
        match lexeme_at(alloc, rest) {
            Ok((lexeme, next)) => {
                lexemes.push(lexeme)?;
                rest = next;
            }
            Err(fault) => return Err(fault),
        }
    }
    Ok(lexemes)
}

/// Whether the text has no lexeme: only white space and comments. It takes no memory, and its cost is the length of the text.
pub fn is_blank(text: &str) -> bool
    ensures { IsTrue result ↔ (lexemes (chars text.now) ≡ Some []) }
{
    let mut rest = text;
    while let Some((c, after)) = split_first(rest) {
        if c.is_whitespace() {
            rest = after;
            continue;
        }
        if !begins_comment(c, after) {
            return false;
        }
        rest = after_line(after);
    }
    true
}
