//! Why a lexeme is bad where the reader refused it.

ghost use Rattle.std.specs.Prelude.{◌≡◌};
ghost use Rattle.q_parse.specs.Verdicts.{wants_count, wants_score, wants_number, is_near_lexeme, is_comma, kind_counts, phrase_counts, terms_count, is_mark, cause};
ghost use Rattle.q_parse.specs.Views.{frames_of, stage_of};

use crate::faults::Cause;
use crate::framing::top;
use crate::stages::{Frame, Kind, Stage};
use crate::sums::sum_operator;
use crate::thesauri::has_level;
use q_lex::{Lexeme, is_foreign, is_plain};

/// Whether one operand or operator too many stands here.
fn wants_count(stage: &Stage, frames: &[Frame], lexeme: &Lexeme) -> bool
    ensures { result ≡ wants_count (stage_of stage.now) (frames_of frames.now) lexeme.now }
{
    match stage {
        Stage::InPhrase(_) => phrase_counts(frames, lexeme),
        Stage::AfterChain(_) => is_near_lexeme(lexeme),
        Stage::AfterTerms => terms_count(frames, lexeme),
        Stage::SumAfter(_, _, _, _) => match sum_operator(lexeme) {
            None => false,
            Some(_) => true,
        },
        _ => false,
    }
}

fn is_near_lexeme(lexeme: &Lexeme) -> bool
    ensures { result ≡ is_near_lexeme lexeme.now }
{
    matches!(lexeme, Lexeme::Near)
}

fn is_comma(lexeme: &Lexeme) -> bool
    ensures { result ≡ is_comma lexeme.now }
{
    matches!(lexeme, Lexeme::Comma)
}

fn kind_counts(kind: &Kind, lexeme: &Lexeme) -> bool
    ensures { result ≡ kind_counts kind.now lexeme.now }
{
    match kind {
        Kind::InNear(_) => is_comma(lexeme),
        Kind::InGroup => false,
        Kind::InDefine => false,
    }
}

fn phrase_counts(frames: &[Frame], lexeme: &Lexeme) -> bool
    ensures { result ≡ phrase_counts (frames_of frames.now) lexeme.now }
{
    match top(frames) {
        None => false,
        Some((frame, _)) => match frame {
            Frame::Group => false,
            Frame::Left(_, _) => false,
            Frame::Chain(_) => is_near_lexeme(lexeme),
            Frame::TermsOf(kind, _) => kind_counts(kind, lexeme),
        },
    }
}

fn terms_count(frames: &[Frame], lexeme: &Lexeme) -> bool
    ensures { result ≡ terms_count (frames_of frames.now) lexeme.now }
{
    match top(frames) {
        None => false,
        Some((frame, _)) => match frame {
            Frame::Group => false,
            Frame::Left(_, _) => false,
            Frame::Chain(_) => false,
            Frame::TermsOf(kind, _) => kind_counts(kind, lexeme),
        },
    }
}

fn wants_score(stage: &Stage, lexeme: &Lexeme) -> bool
    ensures { result ≡ wants_score (stage_of stage.now) lexeme.now }
{
    match lexeme {
        Lexeme::Word(written) => match stage {
            Stage::SumOperand(_, _, _, _) => is_foreign(written),
            Stage::SumAfter(_, _, _, _) => is_foreign(written),
            _ => false,
        },
        _ => false,
    }
}

fn wants_number(stage: &Stage, lexeme: &Lexeme) -> bool
    ensures { result ≡ wants_number (stage_of stage.now) lexeme.now }
{
    match lexeme {
        Lexeme::Word(written) => match stage {
            Stage::Factor(_) => is_plain(written),
            Stage::Threshold(_) => is_plain(written),
            Stage::ThesArgument(relation, _) => has_level(*relation) && is_plain(written),
            Stage::NearSpan(_) => is_plain(written),
            Stage::SumOperand(_, _, _, _) => is_plain(written),
            _ => false,
        },
        _ => false,
    }
}

fn is_mark(lexeme: &Lexeme) -> bool
    ensures { result ≡ is_mark lexeme.now }
{
    match lexeme {
        Lexeme::Refused => true,
        Lexeme::Comma => true,
        _ => false,
    }
}

/// Why the lexeme is bad, where it is.
pub(crate) fn cause(stage: &Stage, frames: &[Frame], lexeme: &Lexeme) -> Cause
    ensures { result ≡ cause (stage_of stage.now) (frames_of frames.now) lexeme.now }
{
    if wants_count(stage, frames, lexeme) {
        return Cause::OutOfRange;
    }
    if is_mark(lexeme) {
        return Cause::NotInProfile;
    }
    if wants_score(stage, lexeme) {
        return Cause::NotInProfile;
    }
    if wants_number(stage, lexeme) {
        Cause::OutOfRange
    } else {
        Cause::Syntax
    }
}
