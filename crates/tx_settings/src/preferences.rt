//! Preferences: how documents are read.

ghost use Rattle.std.specs.Prelude.{◌≡◌, true, IfOk};
ghost use Rattle.std.specs.List.{list_all};
ghost use Rattle.std.specs.Str.{all_scalars};
ghost use Rattle.ct_base.specs.Names.{is_kept};
ghost use Rattle.tx_stop.specs.StopKeys.{are_stop_keys};
ghost use Rattle.tx_tags.specs.Groups.{is_group};
ghost use Rattle.tx_settings.specs.Attributes.{can_be_set, char_text};
ghost use Rattle.tx_settings.specs.Defaults.{default_prefs};
ghost use Rattle.tx_settings.specs.PrefsBytes.{IsPrefs, are_options, is_set};

use ct_base::Memory;
use std::alloc::Global;
use tx_lexer::{CharSet, LexerOptions};
use tx_stop::StopKeys;
use tx_tags::{Group, Section};

/// How documents are read.
#[derive(Debug, Drop)]
pub struct Prefs {
    /// What words are, and how they are written as keys.
    pub lexer: LexerOptions,
    /// The keys of the stopwords.
    pub stop: StopKeys,
    /// The sections, by their tags.
    pub group: Group,
}

impl Prefs {
    /// How texts are read where nothing else is asked for: by the default options, without stopwords and sections.
    pub fn defaults(alloc: Global) -> Result<Prefs, Memory>
        ensures defaults { IfOk result (λ p. p ≡ default_prefs) }
        ensures can_be_set { IfOk result (λ p. can_be_set p.lexer ≡ true) }
    {
        Ok(Prefs {
            lexer: LexerOptions::defaults(alloc)?,
            stop: StopKeys::none(alloc),
            group: Group::empty(alloc, true),
        })
    }

    /// States the rules of the preferences that an index has, where their options can be set. Its cost is linear in the number of
    /// sections and of characters.
    pub fn keep_rules(&self)
        requires { can_be_set self.now.lexer ≡ true }
        ensures { IsPrefs self.now }
    {
        self.keep_parts();
    }

    /// States the rules that the parts of all preferences keep, whatever made them.
    pub(crate) fn keep_parts(&self)
        ensures lexer { are_options self.now.lexer ≡ true }
        ensures stop { are_stop_keys self.now.stop ≡ true }
        ensures group { is_group self.now.group ≡ true }
        ensures named { list_all (λ s. is_kept s.name) self.now.group.sections ≡ true }
    {
        let _keys = self.stop.keys();
        keep_names(self.group.sections());
        keep_set(&self.lexer.printjoins);
        keep_set(&self.lexer.skipjoins);
        keep_set(&self.lexer.startjoins);
        keep_set(&self.lexer.endjoins);
        keep_set(&self.lexer.punctuations);
        keep_char(self.lexer.numjoin);
        keep_char(self.lexer.numgroup);
    }
}

/// States that the name of each section is spelt as names are stored. Its cost is linear in the number of sections.
pub fn keep_names(sections: &[Section])
    ensures { list_all (λ s. is_kept s.name) sections.now ≡ true }
{
    let mut rest = sections;
    while let [section, later @ ..] = rest {
        keep_name(section);
        rest = later;
    }
}

/// States that the name of a section is spelt as names are stored.
#[tactic(auto, using(ct_base::specs::laws::Names::name_is_kept))]
fn keep_name(section: &Section)
    ensures { is_kept section.now.name ≡ true }
{
    let _named = section.name.as_str();
}

/// States that a set is a rising list of Unicode scalar values.
fn keep_set(set: &CharSet)
    ensures { is_set set.now ≡ true }
{
    keep_chars(set.as_slice());
}

/// States that each character is a Unicode scalar value.
fn keep_chars(chars: &[char])
    ensures { all_scalars chars.now ≡ true }
{
    let mut rest = chars;
    while let [first, later @ ..] = rest {
        let _char = *first;
        rest = later;
    }
}

/// States the same of one that may be missing.
fn keep_char(c: Option<char>)
    ensures { all_scalars (char_text c) ≡ true }
{
    keep_chars(c.as_slice());
}
