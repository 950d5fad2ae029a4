//! The operators of a thesaurus.

ghost use Rattle.std.specs.Prelude.{◌≡◌, IfOk, Some};
ghost use Rattle.q_lex.specs.Words.{strict};
ghost use Rattle.q_parse.specs.Grammar.{has_level, default_thesaurus};
ghost use Rattle.q_parse.specs.Machine.{step_at, with_leaf, thes_argument, ThesOpen, ThesFirst, ThesWords, ThesArgument, ThesLevel, ThesName, ThesClose};
ghost use Rattle.q_tree.specs.declared.queries.Leaf.TheVariants.{Thes};
ghost use Rattle.q_parse.specs.Views.{frames_of, Steps};

use crate::framing::{one, with_leaf};
use crate::stages::{Frame, Stage, StepError};
use ct_base::{Listed, Memory, Name};
use q_lex::{Lexeme, Written, read_name, whole_in};
use q_tree::{Leaf, Relation, Word};
use std::alloc::Global;

pub(crate) fn has_level(relation: Relation) -> bool
    ensures { result ≡ has_level relation }
{
    match relation {
        Relation::Broader => true,
        Relation::Narrower => true,
        Relation::Syn => false,
        Relation::Preferred => false,
    }
}

fn thes_argument(
    alloc: Global,
    relation: Relation,
    words: Listed<Word>,
    written: &Written,
    frames: &Vec<Frame>,
) -> Result<Stage, StepError>
    ensures { Steps result frames.now.items (thes_argument strict relation words (frames_of frames.now.items) written.now) }
{
    match read_name(alloc, written)? {
        Some(name) => Ok(Stage::ThesClose(relation, words, 1, name)),
        None => {
            if !has_level(relation) {
                return Err(StepError::Refused);
            }
            match whole_in(written, 1, 99) {
                Some(level) => Ok(Stage::ThesLevel(relation, words, level as u8)),
                None => Err(StepError::Refused),
            }
        }
    }
}

fn default_thesaurus(alloc: Global) -> Result<Name, Memory>
    ensures { IfOk result (λ name. name ≡ default_thesaurus) }
{
    match Name::of_bytes(alloc, b"default")? {
        Some(name) => Ok(name),
        None => Err(Memory),
    }
}

/// A thesaurus operator is read.
fn with_thes(
    alloc: Global,
    frames: &mut Vec<Frame>,
    relation: Relation,
    words: Listed<Word>,
    level: u8,
    thesaurus: Name,
) -> Result<Stage, StepError>
    ensures { Steps result frames.new.items (Some (with_leaf (Thes relation words level thesaurus) (frames_of frames.old.items))) }
{
    Ok(with_leaf(
        alloc,
        frames,
        Leaf::Thes {
            relation,
            words,
            level,
            thesaurus,
        },
    )?)
}

pub(crate) fn in_words(
    alloc: Global,
    frames: &mut Vec<Frame>,
    relation: Relation,
    words: Listed<Word>,
    lexeme: Lexeme,
) -> Result<Stage, StepError>
    ensures { Steps result frames.new.items (step_at strict (ThesWords relation words) (frames_of frames.old.items) lexeme) }
{
    match lexeme {
        Lexeme::Word(written) => {
            if written.word.has_wildcard() {
                return Err(StepError::Refused);
            }
            Ok(Stage::ThesWords(relation, words.with(written.word)?))
        }
        Lexeme::Close => {
            let name = default_thesaurus(alloc)?;
            with_thes(alloc, frames, relation, words, 1, name)
        }
        Lexeme::Comma => Ok(Stage::ThesArgument(relation, words)),
        _ => Err(StepError::Refused),
    }
}

pub(crate) fn thes_open(
    frames: &Vec<Frame>,
    relation: Relation,
    lexeme: &Lexeme,
) -> Result<Stage, StepError>
    ensures { Steps result frames.now.items (step_at strict (ThesOpen relation) (frames_of frames.now.items) lexeme.now) }
{
    match lexeme {
        Lexeme::Open => Ok(Stage::ThesFirst(relation)),
        _ => Err(StepError::Refused),
    }
}

pub(crate) fn first_word(
    alloc: Global,
    frames: &Vec<Frame>,
    relation: Relation,
    lexeme: Lexeme,
) -> Result<Stage, StepError>
    ensures { Steps result frames.now.items (step_at strict (ThesFirst relation) (frames_of frames.now.items) lexeme) }
{
    match lexeme {
        Lexeme::Word(written) => {
            if written.word.has_wildcard() {
                return Err(StepError::Refused);
            }
            Ok(Stage::ThesWords(relation, one(alloc, written.word)?))
        }
        _ => Err(StepError::Refused),
    }
}

pub(crate) fn argument(
    alloc: Global,
    frames: &Vec<Frame>,
    relation: Relation,
    words: Listed<Word>,
    lexeme: &Lexeme,
) -> Result<Stage, StepError>
    ensures { Steps result frames.now.items (step_at strict (ThesArgument relation words) (frames_of frames.now.items) lexeme.now) }
{
    match lexeme {
        Lexeme::Word(written) => thes_argument(alloc, relation, words, written, frames),
        _ => Err(StepError::Refused),
    }
}

pub(crate) fn after_level(
    alloc: Global,
    frames: &mut Vec<Frame>,
    relation: Relation,
    words: Listed<Word>,
    level: u8,
    lexeme: &Lexeme,
) -> Result<Stage, StepError>
    ensures { Steps result frames.new.items (step_at strict (ThesLevel relation words level) (frames_of frames.old.items) lexeme.now) }
{
    match lexeme {
        Lexeme::Close => {
            let name = default_thesaurus(alloc)?;
            with_thes(alloc, frames, relation, words, level, name)
        }
        Lexeme::Comma => Ok(Stage::ThesName(relation, words, level)),
        _ => Err(StepError::Refused),
    }
}

pub(crate) fn thes_name(
    alloc: Global,
    frames: &Vec<Frame>,
    relation: Relation,
    words: Listed<Word>,
    level: u8,
    lexeme: &Lexeme,
) -> Result<Stage, StepError>
    ensures { Steps result frames.now.items (step_at strict (ThesName relation words level) (frames_of frames.now.items) lexeme.now) }
{
    match lexeme {
        Lexeme::Word(written) => match read_name(alloc, written)? {
            Some(name) => Ok(Stage::ThesClose(relation, words, level, name)),
            None => Err(StepError::Refused),
        },
        _ => Err(StepError::Refused),
    }
}

pub(crate) fn thes_close(
    alloc: Global,
    frames: &mut Vec<Frame>,
    relation: Relation,
    words: Listed<Word>,
    level: u8,
    name: Name,
    lexeme: &Lexeme,
) -> Result<Stage, StepError>
    ensures { Steps result frames.new.items (step_at strict (ThesClose relation words level name) (frames_of frames.old.items) lexeme.now) }
{
    match lexeme {
        Lexeme::Close => with_thes(alloc, frames, relation, words, level, name),
        _ => Err(StepError::Refused),
    }
}
