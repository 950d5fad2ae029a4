//! The run of places that is being read.

ghost use Rattle.std.specs.Prelude.{◌≡◌, [], ◌++◌, OnOk};
ghost use Rattle.std.specs.Str.{chars};
ghost use Rattle.std.specs.String.{string_bytes};
ghost use Rattle.tx_lexer.specs.Tokens.{own, rules, token};

use crate::endings::{ends_paragraph, ends_sentence};
use crate::options::LexerOptions;
use crate::roles::Role;
use crate::tokens::Token;
use ct_base::{Memory, push_char};
use std::alloc::Global;
use tx_chars::key;

/// Places that nothing cuts from one another, as far as they have been read.
#[derive(Drop)]
pub(crate) struct Run {
    /// The role of the last place.
    pub(crate) role: Role,
    /// The characters without the skipped ones.
    pub(crate) text: String,
    /// The place of the first byte.
    pub(crate) start: u32,
}

impl Run {
    /// A run without places, which is no token.
    pub(crate) fn new(alloc: Global) -> Run
        ensures role { result.role ≡ Role.Out }
        ensures text { string_bytes result.text ≡ [] }
        ensures start { result.start ≡ 0 }
    {
        Run {
            role: Role::Out,
            text: String::new(alloc),
            start: 0,
        }
    }

    /// Leaves all places, to go on from this one.
    pub(crate) fn restart(&mut self, start: u32)
        ensures role { self.new.role ≡ self.old.role }
        ensures text { string_bytes self.new.text ≡ [] }
        ensures start { self.new.start ≡ start }
    {
        self.text.clear();
        self.start = start;
    }

    /// Takes the next place, a character in this role.
    pub(crate) fn take(&mut self, role: Role, c: char) -> Result<(), Memory>
        ensures role { OnOk result (self.new.role ≡ role) }
        ensures text { OnOk result (chars (string_bytes self.new.text)
            ≡ chars (string_bytes self.old.text) ++ own role c) }
        ensures start { self.new.start ≡ self.old.start }
    {
        if role != Role::Skip {
            push_char(&mut self.text, c)?;
        }
        self.role = role;
        Ok(())
    }

    /// Puts the token that the run is, if it is one. The run ends at the place `end`, and `after` is what follows it.
    pub(crate) fn put(
        &self,
        alloc: Global,
        options: &LexerOptions,
        tokens: &mut Vec<Token>,
        end: u32,
        after: &str,
    ) -> Result<(), Memory>
        ensures { let text = chars (string_bytes self.now.text) in OnOk result (tokens.new.items
            ≡ tokens.old.items ++ token (rules options.now) self.now.role text self.now.start end (chars after.now)) }
    {
        if self.role == Role::Out {
            return Ok(());
        }
        let key = key(
            alloc,
            self.text.as_str(),
            options.base_letter,
            options.mixed_case,
        )?;
        if key.as_slice().is_empty() {
            return Ok(());
        }
        tokens.push(Token {
            key,
            start: self.start,
            end,
            ends_sentence: ends_sentence(options, after),
            ends_paragraph: ends_paragraph(options, after),
        })?;
        Ok(())
    }
}
