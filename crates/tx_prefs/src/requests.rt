//! The PARAMETERS of a CREATE INDEX: what an index asks for.

ghost use Rattle.std.specs.Prelude.{◌≡◌, ◌<◌, [], true, IfOk, IfSome, bytes_eq, codes, length, map, nat_lt};
ghost use Rattle.std.specs.List.{list_all};
ghost use Rattle.std.specs.Option.{option_map};
ghost use Rattle.std.specs.Char.{to_ascii_lowercase};
ghost use Rattle.tx_prefs.specs.Requests.{asked, asks_only, is_kind_among, is_default, is_free, is_of, name_for, requested_parameters, requests_from, requests_of};
ghost use Rattle.tx_prefs.specs.RequestWords.{first_request, keyword, read_word};
ghost use Rattle.tx_prefs.specs.declared.kinds.PrefKind.TheVariants.{IndexSet};

use crate::kinds::PrefKind;
use crate::parameters::Parameters;
use crate::words::words_of;
use ct_base::{Memory, Name, NameFault, Text};
use std::alloc::Global;

/// One request of PARAMETERS: of a kind the one of this name, or the default where there is no name.
#[derive(Debug, Drop)]
pub struct Request {
    pub kind: PrefKind,
    pub name: Option<Name>,
}

/// The requests of a PARAMETERS text, in its order: LEXER, STOPLIST, SECTION GROUP or INDEX SET, and then a name. The name of the
/// default is CTXSYS.DEFAULT_LEXER, CTXSYS.EMPTY_STOPLIST or CTXSYS.NULL_SECTION_GROUP; index sets have no default. Words are read in
/// any ASCII case and separated by white space; each kind comes at most once. None exactly where the text isn't of this form. Its
/// cost is linear in the length of the text.
pub fn read_requests(alloc: Global, text: &str) -> Result<Option<Vec<Request>>, Memory>
    ensures { IfOk result (λ found. option_map (λ v. v.items) found ≡ requests_of text.now) }
{
    let words = words_of(alloc, text)?;
    let requests = requests_in(alloc, &words)?;
    Ok(requests)
}

/// The requests that words spell.
fn requests_in(alloc: Global, words: &[Text]) -> Result<Option<Vec<Request>>, Memory>
    ensures { IfOk result (λ found. option_map (λ v. v.items) found ≡ requests_from [] (map read_word words.now)) }
{
    let mut requests = Vec::new(alloc);
    let mut rest = words;
    while !rest.is_empty() {
        let Some((request, later)) = first_request(alloc, rest)? else {
            return Ok(None);
        };
        if !is_free(request.kind, &requests) {
            return Ok(None);
        }
        requests.push(request)?;
        rest = later;
    }
    Ok(Some(requests))
}

/// Whether no request is of the kind.
fn is_free(kind: PrefKind, requests: &[Request]) -> bool
    ensures { result ≡ is_free kind requests.now }
{
    let mut rest = requests;
    while let [first, later @ ..] = rest {
        if is_of(kind, first.kind) {
            return false;
        }
        rest = later;
    }
    true
}

fn is_of(kind: PrefKind, other: PrefKind) -> bool
    ensures { result ≡ is_of kind other }
{
    kind == other
}

/// The request that the first words spell, and the words behind it.
fn first_request(alloc: Global, words: &[Text]) -> Result<Option<(Request, &[Text])>, Memory>
    ensures request { IfOk result (λ found. option_map (λ r. (r.0, map read_word r.1.now)) found ≡ first_request (map read_word words.now)) }
    ensures shorter { IfOk result (λ found. IfSome found (λ r. length r.1.now < length words.now)) }
{
    let Some((kind, behind)) = keyword(words) else {
        return Ok(None);
    };
    let [word, rest @ ..] = behind else {
        return Ok(None);
    };
    match request_of(alloc, kind, word)? {
        Some(request) => Ok(Some((request, rest))),
        None => Ok(None),
    }
}

/// The kind that the first words name, and the words behind them.
fn keyword(words: &[Text]) -> Option<(PrefKind, &[Text])>
    ensures kind { option_map (λ k. (k.0, map read_word k.1.now)) result ≡ keyword (map read_word words.now) }
    ensures shorter { IfSome result (λ k. length k.1.now < length words.now) }
{
    let [first, rest @ ..] = words else {
        return None;
    };
    if is_word(first, "lexer") {
        return Some((PrefKind::Lexer, rest));
    }
    if is_word(first, "stoplist") {
        return Some((PrefKind::Stoplist, rest));
    }
    let [second, rest @ ..] = rest else {
        return None;
    };
    if is_word(first, "section") && is_word(second, "group") {
        return Some((PrefKind::SectionGroup, rest));
    }
    if is_word(first, "index") && is_word(second, "set") {
        return Some((PrefKind::IndexSet, rest));
    }
    None
}

/// What a word asks for: a name, or that of the default.
fn request_of(alloc: Global, kind: PrefKind, word: &Text) -> Result<Option<Request>, Memory>
    ensures { IfOk result (λ found. found ≡ asked kind (read_word word.now)) }
{
    if is_default(kind, word) {
        return Ok(Some(Request { kind, name: None }));
    }
    match Name::read(alloc, word.as_str()) {
        Ok(name) => Ok(Some(Request {
            kind,
            name: Some(name),
        })),
        Err(NameFault::NotAName) => Ok(None),
        Err(NameFault::Memory) => Err(Memory),
    }
}

/// Whether a word is the name of the default of a kind; index sets have no default.
fn is_default(kind: PrefKind, word: &Text) -> bool
    ensures { result ≡ is_default kind (read_word word.now) }
{
    match kind {
        PrefKind::Lexer => is_word(word, "ctxsys.default_lexer"),
        PrefKind::Stoplist => is_word(word, "ctxsys.empty_stoplist"),
        PrefKind::SectionGroup => is_word(word, "ctxsys.null_section_group"),
        PrefKind::IndexSet => false,
    }
}

/// Whether this is the word, in any ASCII case.
fn is_word(text: &Text, word: &str) -> bool
    requires lower { map to_ascii_lowercase word.now ≡ word.now }
    requires ascii { list_all (λ b. nat_lt b 128) word.now ≡ true }
    ensures { result ≡ bytes_eq (read_word text.now) word.now }
{
    text.as_str().eq_ignore_ascii_case(word)
}

/// Whether each request is of one of these kinds. An index type takes only some kinds of requests. Its cost is linear in the number
/// of requests times the number of kinds.
pub fn asks_only(kinds: &[PrefKind], requests: &[Request]) -> bool
    ensures { result ≡ asks_only kinds.now requests.now }
{
    let mut rest = requests;
    while let [first, later @ ..] = rest {
        if !is_kind_among(first.kind, kinds) {
            return false;
        }
        rest = later;
    }
    true
}

/// Whether a kind is one of these.
fn is_kind_among(kind: PrefKind, kinds: &[PrefKind]) -> bool
    ensures { result ≡ is_kind_among kind kinds.now }
{
    let mut rest = kinds;
    while let [first, later @ ..] = rest {
        if is_of(*first, kind) {
            return true;
        }
        rest = later;
    }
    false
}

/// The lexer preference, the stoplist and the section group that requests ask for, each by the first request of its kind. Its cost is
/// linear in the number of requests.
pub fn requested_parameters(requests: &[Request]) -> Result<Parameters, Memory>
    ensures { IfOk result (λ parameters. parameters ≡ requested_parameters requests.now) }
{
    Ok(Parameters {
        lexer: name_for(PrefKind::Lexer, requests)?,
        stoplist: name_for(PrefKind::Stoplist, requests)?,
        group: name_for(PrefKind::SectionGroup, requests)?,
    })
}

/// The name of the index set that requests ask for, by the first request of one. None where there is no such request. Its cost is
/// linear in the number of requests.
pub fn requested_set(requests: &[Request]) -> Result<Option<Name>, Memory>
    ensures { IfOk result (λ name. name ≡ name_for IndexSet requests.now) }
{
    name_for(PrefKind::IndexSet, requests)
}

/// The name in the first request of the kind, if there is one that has a name.
fn name_for(kind: PrefKind, requests: &[Request]) -> Result<Option<Name>, Memory>
    ensures { IfOk result (λ name. name ≡ name_for kind requests.now) }
{
    let mut rest = requests;
    while let [first, later @ ..] = rest {
        if is_of(kind, first.kind) {
            return copy_of(&first.name);
        }
        rest = later;
    }
    Ok(None)
}

/// A copy of a name that may be missing.
pub(crate) fn copy_of(name: &Option<Name>) -> Result<Option<Name>, Memory>
    ensures { IfOk result (λ copy. copy ≡ name.now) }
{
    match name {
        None => Ok(None),
        Some(name) => Ok(Some(name.clone()?)),
    }
}
