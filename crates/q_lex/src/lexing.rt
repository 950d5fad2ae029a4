//! From a text to its lexemes.

ghost use Rattle.std.specs.Prelude.{ℕ, ◌≡◌, ◌++◌, ◌∷◌, [], ◌||◌, IfOk, length, Some, None};
ghost use Rattle.std.specs.Str.{chars};
ghost use Rattle.std.specs.Prelude.{true, ◌<◌, MatchOption, IfSome, is_some, false};
ghost use Rattle.ct_base.specs.Characters.{is_first};
ghost use Rattle.std.specs.Char.{is_whitespace};
ghost use Rattle.q_lex.specs.Lexing.{is_sign_char, is_plain_char, sign_lexeme, opens, word_lexeme, function_lexeme, put_literal, put_plain, put_wildcard, put_literals, put_in, braced, ReadsWord, flushed, flushed_to, written_at, no_run, refused_functions};
ghost use Rattle.q_lex.specs.Words.{says};
ghost use Rattle.std.specs.List.{list_any};
ghost use Rattle.std.specs.String.{string_bytes};
ghost use Rattle.q_lex.specs.Runs.{FindsAs, NoBraceCloses, run_of};

use crate::lexemes::{Infix, Lexeme, Written};
use crate::words::says;
use ct_base::{Listed, Memory, Text, push_char, split_first};
use q_tree::{Relation, Word, WordBit};
use std::alloc::Global;

fn is_sign_char(c: char) -> bool
    ensures { result ≡ is_sign_char c }
{
    matches!(
        c,
        '&' | '|'
            | '~'
            | '-'
            | '='
            | '*'
            | '>'
            | ';'
            | '('
            | ')'
            | ','
            | '['
            | ']'
            | '?'
            | '!'
            | '$'
    )
}

pub(crate) fn is_plain_char(c: char) -> bool
    ensures { result ≡ is_plain_char c }
{
    !(c.is_whitespace() || is_sign_char(c) || c == '{' || c == '}' || c == '\\')
}

/// The lexeme that the character is by itself.
pub(crate) fn sign_lexeme(c: char) -> Lexeme
    ensures { result ≡ sign_lexeme c }
{
    match c {
        '&' => Lexeme::Operator(Infix::And),
        '|' => Lexeme::Operator(Infix::Or),
        '~' => Lexeme::Operator(Infix::Not),
        '-' => Lexeme::Operator(Infix::MinusSign),
        '=' => Lexeme::Equiv,
        '*' => Lexeme::Star,
        '>' => Lexeme::Greater,
        ';' => Lexeme::Near,
        '(' => Lexeme::Open,
        ')' => Lexeme::Close,
        ',' => Lexeme::Comma,
        _ => {
            if is_sign_char(c) {
                Lexeme::Refused
            } else {
                Lexeme::Bad
            }
        }
    }
}

/// Whether the next lexeme is `(`.
pub(crate) fn opens(text: &str) -> bool
    ensures { result ≡ opens (chars text.now) }
{
    let mut rest = text;
    while let Some((c, after)) = split_first(rest) {
        if !c.is_whitespace() {
            return c == '(';
        }
        rest = after;
    }
    false
}

/// A word so far.
#[derive(Drop)]
pub(crate) struct WordRun {
    bits: Vec<WordBit>,
    chars: String,
    spelling: String,
    plain: bool,
}

/// The bits with the characters behind the last wildcard.
fn flush(bits: Vec<WordBit>, chars: String) -> Result<Vec<WordBit>, Memory>
    ensures { IfOk result (λ all. all.items ≡ flushed_to bits.items (string_bytes chars)) }
{
    let mut bits = bits;
    if !chars.is_empty() {
        bits.push(WordBit::Chars(Text::owned(chars)))?;
    }
    Ok(bits)
}

fn no_run(alloc: Global) -> WordRun
    ensures { run_of result ≡ no_run }
{
    WordRun {
        bits: Vec::new(alloc),
        chars: String::new(alloc),
        spelling: String::new(alloc),
        plain: true,
    }
}

fn put_literal(run: WordRun, c: char) -> Result<WordRun, Memory>
    ensures { IfOk result (λ more. run_of more ≡ put_literal c (run_of run)) }
{
    let WordRun {
        bits,
        chars,
        spelling,
        ..
    } = run;
    let mut chars = chars;
    push_char(&mut chars, c)?;
    Ok(WordRun {
        bits,
        chars,
        spelling,
        plain: false,
    })
}

fn put_wildcard(alloc: Global, run: WordRun, c: char, wildcard: WordBit) -> Result<WordRun, Memory>
    ensures { IfOk result (λ more. run_of more ≡ put_wildcard wildcard c (run_of run)) }
{
    let WordRun {
        bits,
        chars,
        spelling,
        plain,
    } = run;
    let mut spelling = spelling;
    push_char(&mut spelling, c)?;
    let mut bits = flush(bits, chars)?;
    bits.push(wildcard)?;
    Ok(WordRun {
        bits,
        chars: String::new(alloc),
        spelling,
        plain,
    })
}

fn put_plain(alloc: Global, run: WordRun, c: char) -> Result<WordRun, Memory>
    ensures { IfOk result (λ more. run_of more ≡ put_plain c (run_of run)) }
{
    if c == '_' {
        return put_wildcard(alloc, run, c, WordBit::One);
    }
    if c == '%' {
        return put_wildcard(alloc, run, c, WordBit::Many);
    }
    let WordRun {
        bits,
        chars,
        spelling,
        plain,
    } = run;
    let mut chars = chars;
    let mut spelling = spelling;
    push_char(&mut chars, c)?;
    push_char(&mut spelling, c)?;
    Ok(WordRun {
        bits,
        chars,
        spelling,
        plain,
    })
}

/// The word that has been read, at this place.
pub(crate) fn written_at(place: u32, run: WordRun) -> Result<Written, Memory>
    ensures { IfOk result (λ w. w ≡ written_at place (run_of run)) }
{
    let WordRun {
        bits,
        chars,
        spelling,
        plain,
    } = run;
    let bits = Listed::of(flush(bits, chars)?);
    let word = Word { place, bits };
    if plain {
        Ok(Written {
            word,
            plain: Some(Text::owned(spelling)),
        })
    } else {
        Ok(Written { word, plain: None })
    }
}

/// Whether the word is one of the functions that aren't in this profile.
fn is_refused_function(written: &Written) -> bool
    ensures { result ≡ list_any (λ word. says word written.now) refused_functions }
{
    says(written, "about")
        || says(written, "fuzzy")
        || says(written, "haspath")
        || says(written, "inpath")
        || says(written, "mdata")
        || says(written, "sdata")
        || says(written, "ndata")
        || says(written, "sqe")
        || says(written, "rt")
        || says(written, "tt")
        || says(written, "tr")
        || says(written, "trsyn")
        || says(written, "btg")
        || says(written, "btp")
        || says(written, "bti")
        || says(written, "ntg")
        || says(written, "ntp")
        || says(written, "nti")
}

fn function_lexeme(written: Written) -> Lexeme
    ensures { result ≡ function_lexeme written }
{
    if says(&written, "definescore") {
        return Lexeme::Define;
    }
    if says(&written, "syn") {
        return Lexeme::Thes(Relation::Syn);
    }
    if says(&written, "pt") {
        return Lexeme::Thes(Relation::Preferred);
    }
    if says(&written, "bt") {
        return Lexeme::Thes(Relation::Broader);
    }
    if says(&written, "nt") {
        return Lexeme::Thes(Relation::Narrower);
    }
    if is_refused_function(&written) {
        return Lexeme::Refused;
    }
    Lexeme::Word(written)
}

/// The lexeme that a word is, and whether `(` follows it.
pub(crate) fn word_lexeme(before_open: bool, written: Written) -> Lexeme
    ensures { result ≡ word_lexeme before_open written }
{
    if says(&written, "and") {
        return Lexeme::Operator(Infix::And);
    }
    if says(&written, "or") {
        return Lexeme::Operator(Infix::Or);
    }
    if says(&written, "not") {
        return Lexeme::Operator(Infix::Not);
    }
    if says(&written, "minus") {
        return Lexeme::Operator(Infix::MinusWord);
    }
    if says(&written, "equiv") {
        return Lexeme::Equiv;
    }
    if says(&written, "near") {
        return Lexeme::Near;
    }
    if says(&written, "within") {
        return Lexeme::Within;
    }
    if says(&written, "accum") {
        return Lexeme::Refused;
    }
    if before_open {
        function_lexeme(written)
    } else {
        Lexeme::Word(written)
    }
}

/// What follows the `}` at the front, if one stands there.
fn after_brace(text: &str) -> Option<&str>
    ensures brace { MatchOption result (is_first 125 (chars text.now) ≡ false) (λ next. chars text.now ≡ 125 ∷ chars next.now) }
    ensures shorter { IfSome result (λ next. length next.now < length text.now) }
{
    match split_first(text) {
        Some(('}', next)) => Some(next),
        _ => None,
    }
}

/// Whether the braced text whose `{` stands in front of this is closed.
fn is_closed(text: &str) -> bool
    ensures { result ≡ is_some (braced (chars text.now)) }
{
    let mut rest = text;
    while let Some((c, after)) = split_first(rest) {
        if c != '}' {
            rest = after;
            continue;
        }
        match after_brace(after) {
            Some(next) => rest = next,
            None => return true,
        }
    }
    false
}

/// Whether the braced text whose `{` stands in front of this is closed. Nothing is read where it is known that no `{` from here on is.
pub(crate) fn closes(text: &str, none_closes: bool) -> bool
    requires { none_closes ≡ true → is_some (braced (chars text.now)) ≡ false }
    ensures { result ≡ is_some (braced (chars text.now)) }
{
    !none_closes && is_closed(text)
}

/// Puts the braced text whose `{` stands in front of this into the word, and gives what follows it, where it is closed.
fn put_braced(run: WordRun, text: &str) -> Result<Option<(WordRun, &str)>, Memory>
    ensures { IfOk result (λ found. FindsAs found (λ x. (run_of x.0, chars x.1.now)) (put_in (run_of run) (braced (chars text.now)))) }
{
    let mut run = run;
    let mut rest = text;
    while let Some((c, after)) = split_first(rest) {
        if c != '}' {
            run = put_literal(run, c)?;
            rest = after;
            continue;
        }
        match after_brace(after) {
            Some(next) => {
                run = put_literal(run, '}')?;
                rest = next;
            }
            None => return Ok(Some((ended(run), after))),
        }
    }
    Ok(None)
}

/// The word behind a braced text: its spelling isn't plain.
fn ended(run: WordRun) -> WordRun
    ensures { run_of result ≡ put_literals [] (run_of run) }
{
    let WordRun {
        bits,
        chars,
        spelling,
        ..
    } = run;
    WordRun {
        bits,
        chars,
        spelling,
        plain: false,
    }
}

/// The word that stands in front, and what follows it. It may be known that no `{` of the text is closed.
pub(crate) fn read_word(
    alloc: Global,
    text: &str,
    none_closes: bool,
) -> Result<(WordRun, &str), Memory>
    requires { NoBraceCloses none_closes (chars text.now) }
    ensures { IfOk result (λ x. ReadsWord no_run (chars text.now) (run_of x.0) (chars x.1.now)) }
{
    let mut run = no_run(alloc);
    let mut rest = text;
    while let Some((c, after)) = split_first(rest) {
        if is_plain_char(c) {
            run = put_plain(alloc, run, c)?;
            rest = after;
            continue;
        }
        if c == '\\' {
            match split_first(after) {
                None => return Ok((run, rest)),
                Some((d, next)) => {
                    run = put_literal(run, d)?;
                    rest = next;
                    continue;
                }
            }
        }
        if c != '{' {
            return Ok((run, rest));
        }
        if !closes(after, none_closes) {
            return Ok((run, rest));
        }
        match put_braced(run, after)? {
            Some((more, next)) => {
                run = more;
                rest = next;
            }
            None => unreachable!(),
        }
    }
    Ok((run, rest))
}
