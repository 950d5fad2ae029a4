//! The attributes of lexer preferences.

ghost use Rattle.std.specs.Prelude.{◌≡◌, ◌≤◌, bytes_eq, length, map};
ghost use Rattle.std.specs.List.{list_all};
ghost use Rattle.std.specs.Char.{to_ascii_lowercase};
ghost use Rattle.std.specs.Str.{chars};
ghost use Rattle.tx_settings.specs.Attributes.{all_attributes, are_signs, attribute_name, attribute_named, is_no, is_sign, is_yes, takes_value};
ghost use Rattle.tx_settings.specs.PrefsBytes.{attribute_place};

use ct_base::{Listed, Text};
use tx_chars::is_word;

/// An attribute of a lexer preference. The variants stand in the order of their names.
#[derive(Clone, Copy, Debug, PartialEq, Eq)]
pub enum Attribute {
    BaseLetter,
    Endjoins,
    IndexText,
    IndexThemes,
    MixedCase,
    Numgroup,
    Numjoin,
    Printjoins,
    Punctuations,
    Skipjoins,
    Startjoins,
}

/// An attribute with its value as it was given.
#[derive(Debug, Drop)]
pub struct Setting {
    pub attribute: Attribute,
    /// As it was given. One that the attribute takes has at most 256 bytes.
    pub value: Text,
}

/// Settings, in the order of their attributes.
pub type Settings = Listed<Setting>;

/// How many characters the value of a set has at most, repeated ones too.
const SET_LIMIT: usize = 64;

/// All attributes, in the order of their names.
pub(crate) const ALL_ATTRIBUTES: [Attribute; 11] = [
    Attribute::BaseLetter,
    Attribute::Endjoins,
    Attribute::IndexText,
    Attribute::IndexThemes,
    Attribute::MixedCase,
    Attribute::Numgroup,
    Attribute::Numjoin,
    Attribute::Printjoins,
    Attribute::Punctuations,
    Attribute::Skipjoins,
    Attribute::Startjoins,
];

impl Attribute {
    /// The name of the attribute, in lower case.
    pub fn name(self) -> &'static str
        ensures { result.now ≡ attribute_name self }
    {
        match self {
            Attribute::BaseLetter => "base_letter",
            Attribute::Endjoins => "endjoins",
            Attribute::IndexText => "index_text",
            Attribute::IndexThemes => "index_themes",
            Attribute::MixedCase => "mixed_case",
            Attribute::Numgroup => "numgroup",
            Attribute::Numjoin => "numjoin",
            Attribute::Printjoins => "printjoins",
            Attribute::Punctuations => "punctuations",
            Attribute::Skipjoins => "skipjoins",
            Attribute::Startjoins => "startjoins",
        }
    }

    /// Its place among all, in the order of their names.
    pub fn place(self) -> usize
        ensures place { result ≡ attribute_place self }
        ensures among { result ≤ 10 }
    {
        match self {
            Attribute::BaseLetter => 0,
            Attribute::Endjoins => 1,
            Attribute::IndexText => 2,
            Attribute::IndexThemes => 3,
            Attribute::MixedCase => 4,
            Attribute::Numgroup => 5,
            Attribute::Numjoin => 6,
            Attribute::Printjoins => 7,
            Attribute::Punctuations => 8,
            Attribute::Skipjoins => 9,
            Attribute::Startjoins => 10,
        }
    }

    /// Whether this is its name, in any ASCII case.
    fn is_named(self, text: &str) -> bool
        ensures { result ≡ bytes_eq (attribute_name self) (map to_ascii_lowercase text.now) }
    {
        text.eq_ignore_ascii_case(self.name())
    }

    /// The attribute of a name, which is read in any ASCII case.
    pub fn named(text: &str) -> Option<Attribute>
        ensures { result ≡ attribute_named text.now }
    {
        let mut rest = ALL_ATTRIBUTES.as_slice();
        while let [first, later @ ..] = rest {
            if first.is_named(text) {
                return Some(*first);
            }
            rest = later;
        }
        None
    }

    /// Whether the attribute takes this value. BASE_LETTER and MIXED_CASE take YES or NO, INDEX_TEXT takes YES and INDEX_THEMES
    /// takes NO, in any ASCII case. NUMJOIN and NUMGROUP take at most one sign, the others at most 64, repeated ones counted. A sign
    /// is neither a character of words nor white space. Its cost is linear in the length of the value.
    pub fn takes(self, value: &str) -> bool
        ensures { result ≡ takes_value self value.now }
    {
        match self {
            Attribute::BaseLetter | Attribute::MixedCase => is_yes(value) || is_no(value),
            Attribute::IndexText => is_yes(value),
            Attribute::IndexThemes => is_no(value),
            Attribute::Numgroup | Attribute::Numjoin => are_signs(1, value),
            Attribute::Endjoins
            | Attribute::Printjoins
            | Attribute::Punctuations
            | Attribute::Skipjoins
            | Attribute::Startjoins => are_signs(SET_LIMIT, value),
        }
    }
}

pub(crate) fn is_yes(text: &str) -> bool
    ensures { result ≡ is_yes text.now }
{
    text.eq_ignore_ascii_case("yes")
}

fn is_no(text: &str) -> bool
    ensures { result ≡ is_no text.now }
{
    text.eq_ignore_ascii_case("no")
}

/// Whether the character is neither one of words nor white space.
fn is_sign(c: char) -> bool
    ensures { result ≡ is_sign c }
{
    !(is_word(c) || c.is_whitespace())
}

fn have_only_signs(text: &str) -> bool
    ensures { result ≡ list_all is_sign (chars text.now) }
{
    text.chars().all(is_sign)
}

fn char_count(text: &str) -> usize
    ensures { result ≡ length (chars text.now) }
{
    text.chars().count()
}

/// Whether the text is at most so many signs.
fn are_signs(limit: usize, text: &str) -> bool
    ensures { result ≡ are_signs limit text.now }
{
    char_count(text) <= limit && have_only_signs(text)
}
