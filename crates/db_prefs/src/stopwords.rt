//! CTX_DDL.ADD_STOPWORD.
#![tactic(auto, using(ct_keep::specs::laws::Composing::reads_on, ct_keep::specs::laws::Composing::reads_short))]

ghost use Rattle.std.specs.Prelude.{◌≡◌, IfOk, true, false};
ghost use Rattle.std.specs.Option.{option_map};
ghost use Rattle.ct_keep.specs.KeeperViews.{OnlyReads};
ghost use Rattle.tx_tags.specs.Groups.{is_among as is_one_of};
ghost use Rattle.tx_settings.specs.PrefsBytes.{are_words};
ghost use Rattle.db_state.specs.Lines.{call_done};
ghost use Rattle.db_state.specs.Plans.{IsStorePlan, Plans};
ghost use Rattle.db_prefs.specs.Defining.{PlansStopword, add_stopword, among, has_stopword_length as stopword_length};

use crate::lookups::words_of;
use ct_base::{Memory, Name, Text};
use ct_keep::{KeepFault, Keeper};
use db_call::{are_texts, first_fault, missing_name, text_at};
use db_cond::Fault;
use db_state::Plan;
use st_parse::Arg;
use std::alloc::Global;
use tx_prefs::stoplist_changes;
use tx_stop::STOP_LIMIT;

/// How many bytes a stopword has at most.
const STOPWORD_LIMIT: usize = 64;

/// Whether the word is one of these.
fn is_among(words: &[Text], word: &str) -> bool
    ensures { result ≡ is_one_of word.now words.now }
{
    let mut rest = words;
    while let [first, others @ ..] = rest {
        if word == first.as_str() {
            return true;
        }
        rest = others;
    }
    false
}

/// The word, where the list is there and has it.
fn taken_word<'a>(found: &Option<Vec<Text>>, word: Option<&'a str>) -> Option<&'a str>
    ensures { option_map (λ t. t.now) result ≡ among (option_map (λ v. v.items) found.now) (option_map (λ t. t.now) word.entry) }
{
    let Some(words) = found else {
        return None;
    };
    let Some(word) = word else {
        return None;
    };
    if is_among(words, word) {
        Some(word)
    } else {
        None
    }
}

/// Whether the word has 1 to 64 bytes.
fn has_stopword_length(word: &str) -> bool
    ensures { result ≡ stopword_length word.now }
{
    !word.is_empty() && word.len() <= STOPWORD_LIMIT
}

/// What a word that is added comes to, of a list that is there with these words.
fn added_plan<'a>(
    alloc: Global,
    name: &Name,
    words: Vec<Text>,
    word: &str,
) -> Result<Plan<'a>, Memory>
    requires are { are_words words.items ≡ true }
    requires length { stopword_length word.now ≡ true }
    ensures plan { is_one_of word.now words.items ≡ false → PlansStopword result name.now words.items word.now }
    ensures entries { IfOk result IsStorePlan }
{
    if words.len() >= STOP_LIMIT {
        return Ok(Plan::Refused(Fault::LimitReached));
    }
    let mut words = words;
    words.push(Text::of(alloc, word)?)?;
    let Some(batch) = stoplist_changes(alloc, name, &words)? else {
        return Ok(Plan::Refused(Fault::LimitReached));
    };
    Ok(Plan::Done(batch))
}

/// The plan of CTX_DDL.ADD_STOPWORD: a refusal, or the batch that adds the word to the stoplist of this name.
pub(crate) fn stopword_plan<'a, K: Keeper>(
    alloc: Global,
    keeper: &mut K,
    name: &'a Option<Name>,
    args: &'a [Arg],
) -> Result<Plan<'a>, KeepFault>
    requires { (K.view keeper.old).ready }
    ensures plan { Plans K.view keeper.old result (λ m. add_stopword m name.now args.now) call_done }
    ensures entries { IfOk result IsStorePlan }
    ensures reads { OnlyReads K.view keeper.old keeper.new result }
{
    let found = words_of(alloc, keeper, name)?;
    let word = text_at(args, 1);
    let unknown = missing_name(found.is_some(), name);
    if let Some(fault) = first_fault(unknown, taken_word(&found, word), are_texts(args, 2)) {
        return Ok(Plan::Refused(fault));
    }
    let Some(word) = word else {
        return Ok(Plan::Refused(Fault::BadValue));
    };
    if !has_stopword_length(word) {
        return Ok(Plan::Refused(Fault::BadValue));
    }
    let Some(name) = name else {
        return Ok(Plan::Refused(Fault::BadValue));
    };
    let Some(words) = found else {
        return Ok(Plan::Refused(Fault::BadValue));
    };
    let plan = added_plan(alloc, name, words, word)?;
    Ok(plan)
}
