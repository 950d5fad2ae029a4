//! What each place of a text is for the tokens around it.

ghost use Rattle.std.specs.Prelude.{◌≡◌, ◌||◌};
ghost use Rattle.tx_lexer.specs.Tokens.{is_core, is_core_at, is_cut, is_digit_at, is_this, role_at};

use crate::options::LexerOptions;
use tx_chars::{is_digit, is_word};

/// What a character of a text is for the tokens around it.
#[derive(Clone, Copy, Debug, PartialEq, Eq)]
pub enum Role {
    /// Belongs to no token.
    Out,
    /// A character of words.
    Core,
    /// Joins digits within a number.
    Number,
    /// Stands inside a token and isn't part of its text.
    Skip,
    /// Begins a token.
    Start,
    /// Ends a token.
    End,
}

/// Whether the text is cut between two neighbours of these roles.
pub(crate) fn is_cut(role: Role, next: Role) -> bool
    ensures { result ≡ is_cut role next }
{
    match role {
        Role::Out | Role::End => true,
        _ => matches!(next, Role::Out | Role::Start),
    }
}

/// The role of a character between its neighbours.
pub(crate) fn role_at(
    options: &LexerOptions,
    before: Option<char>,
    c: char,
    after: Option<char>,
) -> Role
    ensures { result ≡ role_at options.now before c after }
{
    if is_core(options, c) {
        Role::Core
    } else if options.skipjoins.has(c)
        && is_core_at(options, before)
        && is_core_at(options, after)
    {
        Role::Skip
    } else if joins_digits(options, c) && is_digit_at(before) && is_digit_at(after) {
        Role::Number
    } else if options.startjoins.has(c) && is_core_at(options, after) {
        Role::Start
    } else if options.endjoins.has(c) && is_core_at(options, before) {
        Role::End
    } else {
        Role::Out
    }
}

/// Whether the character belongs to words.
fn is_core(options: &LexerOptions, c: char) -> bool
    ensures { result ≡ is_core options.now c }
{
    is_word(c) || options.printjoins.has(c)
}

/// Whether there is a character, and of words.
fn is_core_at(options: &LexerOptions, c: Option<char>) -> bool
    ensures { result ≡ is_core_at options.now c }
{
    match c {
        Some(c) => is_core(options, c),
        None => false,
    }
}

/// Whether the character joins two digits into one number.
fn joins_digits(options: &LexerOptions, c: char) -> bool
    ensures { result ≡ (is_this options.now.numjoin c || is_this options.now.numgroup c) }
{
    is_this(options.numjoin, c) || is_this(options.numgroup, c)
}

fn is_this(one: Option<char>, c: char) -> bool
    ensures { result ≡ is_this one c }
{
    match one {
        Some(d) => d == c,
        None => false,
    }
}

/// Whether there is a character, and a decimal digit.
fn is_digit_at(c: Option<char>) -> bool
    ensures { result ≡ is_digit_at c }
{
    match c {
        Some(c) => is_digit(c),
        None => false,
    }
}
