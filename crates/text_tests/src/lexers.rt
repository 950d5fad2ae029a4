//! Tokens of texts, by each option of a lexer.

use crate::keys::repeated;
use crate::rows::{compare, key_text};
use ct_base::{Memory, Text};
use std::alloc::Global;
use std::test::Fail;
use tx_lexer::{CharSet, Lexer, LexerOptions, Token, tokens_by};
use tx_settings::{Attribute, Setting, options_of};

/// The key of a token, its places, and an `s` and a `p` where it ends a sentence and a paragraph.
fn spell(alloc: Global, line: &mut String, token: &Token) -> Result<(), Memory> {
    let key = key_text(token.key.as_slice());
    let start = token.start;
    let end = token.end;
    let sentence = if token.ends_sentence { " s" } else { "" };
    let paragraph = if token.ends_paragraph { " p" } else { "" };
    let text = format!(in alloc; "{key} {start} {end}{sentence}{paragraph}; ")?;
    line.push_str(text.as_str())?;
    Ok(())
}

/// The tokens of a text in one line.
fn spelt(alloc: Global, options: &LexerOptions, text: &str) -> Result<String, Memory> {
    let mut line = String::new(alloc);
    if text.len() <= 300 {
        for token in &tokens_by(alloc, options, text)? {
            spell(alloc, &mut line, token)?;
        }
    }
    Ok(line)
}

/// The default options with these settings.
fn options_by(alloc: Global, settings: &[(Attribute, &str)]) -> Result<LexerOptions, Memory> {
    let mut all = Vec::new(alloc);
    for (attribute, value) in settings {
        let value = Text::of(alloc, value)?;
        all.push(Setting {
            attribute: *attribute,
            value,
        })?;
    }
    options_of(alloc, &all)
}

/// Settings of a lexer, and a text with its tokens.
type Row = (
    &'static [(Attribute, &'static str)],
    &'static str,
    &'static str,
);

const ROWS: &[Row] = &[
    // the default options: numbers and marks, sentences and paragraphs, texts of several scripts
    (&[], "", ""),
    (
        &[],
        "Web-site, 1,000.50!",
        "web 0 3; site 4 8; 1,000.50 10 18 s; ",
    ),
    (
        &[],
        "a.b c.\n d. 1,",
        "a 0 1; b 2 3; c 4 5 s p; d 8 9 s; 1 11 12; ",
    ),
    (
        &[],
        "1.5,000.7 .5 5. a.5 5.a 1..2",
        "1.5,000.7 0 9; 5 11 12; 5 13 14 s; a 16 17; 5 18 19; 5 20 21; a 22 23; 1 24 25; 2 27 28; ",
    ),
    (
        &[],
        "a.\n b.\nc? \nd!",
        "a 0 1 s p; b 4 5 s; c 7 8 s; d 11 12 s; ",
    ),
    (&[], "Café au lait?", "café 0 5; au 6 8; lait 9 13 s; "),
    (
        &[],
        "Ὀδυσσεύς naïve Straße 日本語 ١٢٫٣",
        "ὀδυσσεύσ 0 17; naïve 18 24; strasse 25 32; 日本語 33 42; ١٢ 43 47; ٣ 49 51; ",
    ),
    (&[], "١.٢ ½.5 Ⅷ", "١.٢ 0 5; ½ 6 8; 5 9 10; ⅷ 11 14; "),
    (&[], "पढ़ना।\u{3000}क़", "पढ़ना 0 15; क़ 21 27; "),
    (&[], "a.\u{3000}e\u{301}€b", "a 0 1 s; é 5 8; b 11 12; "),
    // printjoins stand in words
    (
        &[(Attribute::Printjoins, "€_"), (Attribute::Skipjoins, "_")],
        "a_b _ €c-d",
        "a_b 0 3; _ 4 5; €c 6 10; d 11 12; ",
    ),
    // skipjoins are left out inside a word
    (
        &[(Attribute::Skipjoins, "-\u{ad}")],
        "Web-site -a b- c--d é\u{ad}è",
        "website 0 8; a 10 11; b 12 13; c 15 16; d 18 19; éè 20 26; ",
    ),
    // startjoins begin a token
    (
        &[(Attribute::Startjoins, "#")],
        "a#b #c # ##d",
        "a 0 1; #b 1 3; #c 4 6; #d 10 12; ",
    ),
    // endjoins end a token
    (
        &[(Attribute::Endjoins, "+")],
        "c+ c++ +c c+d",
        "c+ 0 2; c+ 3 5; c 8 9; c+ 10 12; d 12 13; ",
    ),
    // the first role that fits counts: a character that begins and ends tokens begins one where a word follows
    (
        &[(Attribute::Startjoins, "*."), (Attribute::Endjoins, "*.")],
        "a*b c* 1.2 d.e f.",
        "a 0 1; *b 1 3; c* 4 6; 1.2 7 10; d 11 12; .e 12 14; f. 15 17; ",
    ),
    // other joins of numbers
    (
        &[(Attribute::Numjoin, ""), (Attribute::Numgroup, "\u{66b}")],
        "1.5 1,000 ١٢٫٣",
        "1 0 1; 5 2 3; 1 4 5; 000 6 9; ١٢٫٣ 10 18; ",
    ),
    // other punctuations
    (
        &[(Attribute::Punctuations, ";。")],
        "a; b. c。\n\nd;",
        "a 0 1 s; b 3 4; c 6 7 s p; d 12 13 s; ",
    ),
    // all marks, and base letters alone
    (&[], "\u{301} É", "\u{301} 0 2; é 3 5; "),
    (&[(Attribute::BaseLetter, "YES")], "\u{301} É", "e 3 5; "),
    // upper and lower case
    (
        &[(Attribute::MixedCase, "yes")],
        "Web ΣΑΣ Straße",
        "Web 0 3; ΣΑΣ 4 10; Straße 11 18; ",
    ),
];

/// The texts that give other tokens.
fn wrong_rows(alloc: Global) -> Result<String, Memory> {
    let mut wrong = String::new(alloc);
    for (settings, text, tokens) in ROWS {
        let options = options_by(alloc, settings)?;
        let found = spelt(alloc, &options, text)?;
        compare(alloc, &mut wrong, text, found.as_str(), tokens)?;
    }
    Ok(wrong)
}

#[test]
fn tokens_by_each_option(rt: HostRuntime) -> Result<(), Fail> {
    let wrong = wrong_rows(rt.alloc())?;
    assert_eq!(rt; wrong.as_str(), "");
    Ok(())
}

/// Whether a lexer closes sentences by a question mark and by a semicolon, and how many tokens it gives of a text.
fn lexer_facts(alloc: Global) -> Result<(bool, bool, usize), Memory> {
    let lexer = Lexer::new(LexerOptions::defaults(alloc)?);
    let tokens = lexer.tokens(alloc, "one two")?;
    let marks = &lexer.options().punctuations;
    Ok((marks.has('?'), marks.has(';'), tokens.len()))
}

/// A lexer has the options that it was made with, and gives the tokens by them.
#[test]
fn lexers(rt: HostRuntime) -> Result<(), Fail> {
    assert_eq!(rt; lexer_facts(rt.alloc())?, (true, false, 2));
    Ok(())
}

/// The places of the only token of a text, and how long its key is; None where there are more or none, or the text is too long.
fn only_token(alloc: Global, text: &str) -> Result<Option<(u32, u32, usize)>, Memory> {
    let options = LexerOptions::defaults(alloc)?;
    if text.len() > 300 {
        return Ok(None);
    }
    Ok(match tokens_by(alloc, &options, text)?.as_slice() {
        [token] => Some((token.start, token.end, token.key.as_slice().len())),
        _ => None,
    })
}

fn long_word(alloc: Global, c: char, times: usize) -> Result<Option<(u32, u32, usize)>, Memory> {
    let text = repeated(alloc, c, times)?;
    only_token(alloc, text.as_str())
}

/// A word of 300 letters, and one of 150 of two bytes each, have all their places, and keys that are cut.
#[test]
fn long_words(rt: HostRuntime) -> Result<(), Fail> {
    for (c, times, length) in [('a', 300, 255), ('é', 150, 254)] {
        assert_eq!(rt; long_word(rt.alloc(), c, times)?, Some((0, 300, length)));
    }
    Ok(())
}

/// Which of a few characters a set has, and before them all of it.
fn members(alloc: Global) -> Result<String, Memory> {
    let set = CharSet::of(alloc, "-_-#é_")?;
    let mut line = String::new(alloc);
    for c in set.as_slice() {
        line.push(*c)?;
    }
    for c in ['#', '-', 'é', 'a', '!', 'ü'] {
        line.push_str(if set.has(c) { " yes" } else { " no" })?;
    }
    Ok(line)
}

/// A set has each character once, in rising order.
#[test]
fn sets(rt: HostRuntime) -> Result<(), Fail> {
    assert_eq!(rt; members(rt.alloc())?.as_str(), "#-_é yes yes yes no no no");
    Ok(())
}
