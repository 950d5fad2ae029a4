//! CTX_DOC.POLICY_TOKENS.
#![tactic(auto, using(ct_keep::specs::laws::Composing::reads_none, ct_keep::specs::laws::Composing::reads_on, ct_keep::specs::laws::Composing::reads_short))]

ghost use Rattle.std.specs.Prelude.{◌≡◌, ◌++◌, map, IfOk, OnOk, None, true, false, length, nat_lt};
ghost use Rattle.std.specs.Option.{option_map};
ghost use Rattle.ct_base.specs.Limits.{text_limit};
ghost use Rattle.ct_keep.specs.KeeperViews.{OnlyReads};
ghost use Rattle.db_cond.specs.Lines.{line};
ghost use Rattle.db_state.specs.States.{Sees, StoreState};
ghost use Rattle.db_state.specs.Effects.{reply_by};
ghost use Rattle.db_state.specs.Lines.{lines_or_none};
ghost use Rattle.db_state.specs.Plans.{GivesReply, Replies};
ghost use Rattle.db_index.specs.Tokenizing.{policy_tokens as policy_tokens_effect, reads_no_preference as are_few, text_asked as text_there, token_line, token_lines as lines_of_text, tokens_asked as asked_effect};

use ct_base::{Memory, TEXT_LIMIT};
use ct_keep::{KeepFault, Keeper};
use db_call::{are_texts, name_at, text_at};
use db_cond::{Fault, fault_line, no_rows, word_line};
use st_parse::Arg;
use std::alloc::Global;
use tx_lexer::{Lexer, Token};
use tx_prefs::lexer_settings;
use tx_settings::{Setting, options_of};

/// CTX_DOC.POLICY_TOKENS: a line for each token of a text, by the default options; or, where the name of a lexer preference stands
/// before the text, by those that its settings make now. The first of these that holds: E11 where the first of two arguments or
/// more spells a name that no lexer preference has; E13 where the arguments are neither one text nor two; E16 where the text has
/// over 4000 bytes; E30 where the first of two texts spells no name.
///
/// Where there are fewer than two arguments its reply is the same in every state. Its cost is that of reading the preference, if one is
/// named, and of `options_of` over its settings, and linear in the length of the text. It changes nothing, and never answers Full.
pub fn policy_tokens<K: Keeper>(
    alloc: Global,
    keeper: &mut K,
    args: &[Arg],
) -> Result<Vec<u8>, KeepFault>
    requires { (K.view keeper.old).ready }
    ensures serves { Replies K.view keeper.old keeper.new result (λ m. policy_tokens_effect m args.now) None }
    ensures fixed { (m : StoreState) → are_few args.now ≡ true → GivesReply result (policy_tokens_effect m args.now) }
    ensures reads { OnlyReads K.view keeper.old keeper.new result }
{
    if reads_no_preference(args) {
        return Ok(default_tokens(alloc, args)?);
    }
    named_tokens(alloc, keeper, args)
}

/// Whether there are too few arguments for a preference to be named.
fn reads_no_preference(args: &[Arg]) -> bool
    ensures { result ≡ are_few args.now }
{
    args.len() < 2
}

/// The reply where no preference is named.
fn default_tokens(alloc: Global, args: &[Arg]) -> Result<Vec<u8>, Memory>
    requires { are_few args.now ≡ true }
    ensures { (m : StoreState) → IfOk result (λ reply. reply.items ≡ reply_by (policy_tokens_effect m args.now)) }
{
    let settings = Vec::new(alloc);
    tokens_asked(alloc, Some(&settings), args)
}

/// The reply where a preference may be named.
fn named_tokens<K: Keeper>(
    alloc: Global,
    keeper: &mut K,
    args: &[Arg],
) -> Result<Vec<u8>, KeepFault>
    requires ready { (K.view keeper.old).ready }
    requires more { are_few args.now ≡ false }
    ensures reply { Sees K.view keeper.old result (λ m reply. reply.items ≡ reply_by (policy_tokens_effect m args.now)) }
    ensures reads { OnlyReads K.view keeper.old keeper.new result }
{
    let Some(name) = name_at(alloc, args, 0)? else {
        return Ok(tokens_asked(alloc, None, args)?);
    };
    let Some(settings) = lexer_settings(alloc, keeper, &name)? else {
        return Ok(fault_line(alloc, Fault::UnknownName(name.as_str()))?);
    };
    Ok(tokens_asked(alloc, Some(&settings), args)?)
}

/// The reply by the settings of the preference, if there are any.
fn tokens_asked(
    alloc: Global,
    settings: Option<&[Setting]>,
    args: &[Arg],
) -> Result<Vec<u8>, Memory>
    ensures { (m : StoreState) → IfOk result (λ reply. reply.items ≡ reply_by (asked_effect m (option_map (λ s. s.now) settings.entry) args.now)) }
{
    let Some(text) = text_asked(args) else {
        return fault_line(alloc, Fault::WrongValues);
    };
    if is_too_long(text) {
        return fault_line(alloc, Fault::ValueTooLong);
    }
    let Some(settings) = settings else {
        return fault_line(alloc, Fault::BadValue);
    };
    text_tokens(alloc, settings, text)
}

/// The text whose tokens are asked for, where the arguments are one text or two.
fn text_asked(args: &[Arg]) -> Option<&str>
    ensures { option_map (λ t. t.now) result ≡ text_there args.now }
{
    if are_texts(args, 1) {
        return text_at(args, 0);
    }
    if are_texts(args, 2) {
        return text_at(args, 1);
    }
    None
}

/// Whether a text has more bytes than one may have.
fn is_too_long(text: &str) -> bool
    ensures { result ≡ nat_lt text_limit (length text.now) }
{
    text.len() > usize::from(TEXT_LIMIT)
}

/// A line for each token of a text, by the options that settings make.
fn text_tokens(alloc: Global, settings: &[Setting], text: &str) -> Result<Vec<u8>, Memory>
    requires { nat_lt text_limit (length text.now) ≡ false }
    ensures { IfOk result (λ lines. lines.items ≡ lines_of_text settings.now text.now) }
{
    let lexer = Lexer::new(options_of(alloc, settings)?);
    let tokens = lexer.tokens(alloc, text)?;
    token_lines(alloc, &tokens)
}

/// A line for each token.
fn token_lines(alloc: Global, tokens: &[Token]) -> Result<Vec<u8>, Memory>
    ensures { IfOk result (λ lines. lines.items ≡ lines_or_none (map token_line tokens.now)) }
{
    if tokens.is_empty() {
        return Ok(Vec::from_slice(alloc, no_rows())?);
    }
    let mut lines = Vec::new(alloc);
    for token in tokens {
        push_token(alloc, &mut lines, token)?;
    }
    Ok(lines)
}

/// Puts the line of a token.
fn push_token(alloc: Global, lines: &mut Vec<u8>, token: &Token) -> Result<(), Memory>
    ensures { OnOk result (lines.new.items ≡ lines.old.items ++ line (token_line token.now)) }
{
    let length = token.end.saturating_sub(token.start);
    word_line(alloc, lines, token.key.as_slice(), token.start, length)
}
