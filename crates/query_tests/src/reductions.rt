//! Queries, and what they are reduced to.

ghost use Rattle.std.specs.Prelude.{◌≡◌, true, IfOk};
ghost use Rattle.std.specs.List.{list_all};
ghost use Rattle.q_tree.specs.Limits.{word_keeps_limit, keeps_limits};
ghost use Rattle.q_tree.specs.Trees.{tree_of};

use ct_base::{Listed, Memory, Name, Text};
use q_parse::parse;
use q_reduce::{NamedThesaurus, ReduceCtx, ReduceFault, reduce, thesauri_in};
use q_tree::{Flat, Leaf, Phrases, Place, Query, Relation, Slot, Word, WordBit, WordSlot};
use std::alloc::Global;
use std::str::from_utf8;
use std::test::Fail;
use th_graph::{Term, Thesaurus};
use tx_lexer::LexerOptions;
use tx_stop::StopKeys;
use tx_tags::{Group, SectionKind};

// ---- queries

/// A word at a place of a text. There is no long one.
fn word(alloc: Global, place: u32, text: &str) -> Result<Word, Memory>
    ensures { IfOk result (λ w. word_keeps_limit w ≡ true) }
{
    if text.len() > 100 {
        return Err(Memory);
    }
    let bits = Listed::empty(alloc).with(WordBit::Chars(Text::of(alloc, text)?))?;
    Ok(Word { place, bits })
}

/// A word that stands by itself.
fn alone(alloc: Global, place: u32, text: &str) -> Result<WordSlot, Memory>
    ensures { IfOk result (λ ws. list_all word_keeps_limit ws ≡ true) }
{
    Listed::empty(alloc).with(word(alloc, place, text)?)
}

/// Two words that EQUIV joins.
fn joined(alloc: Global, first: &str, second: &str) -> Result<WordSlot, Memory>
    ensures { IfOk result (λ ws. list_all word_keeps_limit ws ≡ true) }
{
    Listed::empty(alloc)
        .with(word(alloc, 1, first)?)?
        .with(word(alloc, 20, second)?)
}

/// The phrase of one place.
fn single(alloc: Global, words: WordSlot) -> Result<Query, Memory>
    requires { list_all word_keeps_limit words ≡ true }
    ensures { IfOk result (λ q. keeps_limits (tree_of q) ≡ true) }
{
    let places = Listed::empty(alloc).with(words)?;
    Ok(Query::Leaf(Leaf::Phrase(places)))
}

/// A phrase of three words.
fn phrase(alloc: Global, first: &str, second: &str, third: &str) -> Result<Query, Memory>
    ensures { IfOk result (λ q. keeps_limits (tree_of q) ≡ true) }
{
    let places = Listed::empty(alloc)
        .with(alone(alloc, 1, first)?)?
        .with(alone(alloc, 20, second)?)?
        .with(alone(alloc, 40, third)?)?;
    Ok(Query::Leaf(Leaf::Phrase(places)))
}

fn plain(alloc: Global, text: &str) -> Result<Query, Memory>
    ensures { IfOk result (λ q. keeps_limits (tree_of q) ≡ true) }
{
    single(alloc, alone(alloc, 1, text)?)
}

fn and(alloc: Global, a: Query, b: Query) -> Result<Query, Memory>
    requires a { keeps_limits (tree_of a) ≡ true }
    requires b { keeps_limits (tree_of b) ≡ true }
    ensures { IfOk result (λ q. keeps_limits (tree_of q) ≡ true) }
{
    Ok(Query::And(Box::new(alloc, a)?, Box::new(alloc, b)?))
}

fn within(alloc: Global, name: Name, a: Query) -> Result<Query, Memory>
    requires { keeps_limits (tree_of a) ≡ true }
    ensures { IfOk result (λ q. keeps_limits (tree_of q) ≡ true) }
{
    Ok(Query::Within(name, Box::new(alloc, a)?))
}

// ---- what is shown of reduced queries

fn put_slot(line: &mut String, slot: &Slot) -> Result<(), Memory> {
    match slot {
        Slot::Takes { keys, .. } => {
            for key in keys.as_slice() {
                line.push_str(from_utf8(key.as_slice()).unwrap_or("no text"))?;
                line.push(' ')?;
            }
        }
        _ => line.push_str("* ")?,
    }
    Ok(())
}

fn put_phrases(line: &mut String, phrases: &Phrases) -> Result<(), Memory> {
    for phrase in phrases.as_slice() {
        for slot in phrase.as_slice() {
            put_slot(line, slot)?;
        }
    }
    Ok(())
}

fn place_text(place: &Place) -> &str {
    match place {
        Place::Zone(name) => name.as_str(),
        Place::Field(1) => "the first field",
        _ => "another place",
    }
}

/// A query of ANDs, WITHINs and terms; of another one nothing.
fn put_query(line: &mut String, query: &Flat) -> Result<(), Memory> {
    match query {
        Flat::Term(phrases) => put_phrases(line, phrases)?,
        Flat::And(a, b) => {
            put_query(line, a)?;
            line.push_str("and ")?;
            put_query(line, b)?;
        }
        Flat::Within(place, a) => {
            put_query(line, a)?;
            line.push_str("within ")?;
            line.push_str(place_text(place))?;
        }
        _ => {}
    }
    Ok(())
}

/// What is wrong, and the name that it is said of.
fn fault_texts(fault: &ReduceFault) -> (&'static str, &str) {
    match fault {
        ReduceFault::NoSection(name) => ("no section ", name.as_str()),
        ReduceFault::FieldInside(name) => ("a field inside: ", name.as_str()),
        ReduceFault::NoThesaurus(name) => ("no thesaurus ", name.as_str()),
        ReduceFault::ManyTerms => ("too many terms", ""),
        ReduceFault::ManyTokens(20) => ("the second word isn't one token", ""),
        ReduceFault::ManyTokens(_) => ("the first word isn't one token", ""),
        ReduceFault::Memory => ("no memory", ""),
    }
}

fn put_fault(line: &mut String, fault: &ReduceFault) -> Result<(), Memory> {
    let (what, name) = fault_texts(fault);
    line.push_str(what)?;
    line.push_str(name)?;
    Ok(())
}

/// A section, its kind, and its only tag.
type Row = (&'static str, SectionKind);

/// The zone z and the field t.
const SECTIONS: &[Row] = &[("z", SectionKind::Zone), ("t", SectionKind::Field)];

fn section_name(alloc: Global, text: &str) -> Result<Name, Memory> {
    Name::read(alloc, text).map_err(|_| Memory)
}

/// The group of these sections, each with a tag that is named as it is.
fn group_of(alloc: Global, rows: &[Row]) -> Result<Group, Memory> {
    let mut group = Group::empty(alloc, false);
    for (section, kind) in rows {
        let name = section_name(alloc, section)?;
        group = group.with_tag(alloc, &name, *kind, section)?.ok_or(Memory)?;
    }
    Ok(group)
}

/// What a query is reduced to.
fn reduced(alloc: Global, query: &Query, ctx: &ReduceCtx) -> Result<String, Memory>
    requires { keeps_limits (tree_of query.now) ≡ true }
{
    let mut line = String::new(alloc);
    match reduce(alloc, query, ctx) {
        Ok(None) => line.push_str("nothing")?,
        Ok(Some(query)) => put_query(&mut line, &query)?,
        Err(fault) => put_fault(&mut line, &fault)?,
    }
    Ok(line)
}

/// The stop keys of `is`.
fn stop_keys(alloc: Global) -> Result<StopKeys, Memory> {
    let words = [Text::of(alloc, "is")?];
    StopKeys::new(alloc, &words, false, false)
}

/// A relation of the thesaurus `th`.
type Stated = (&'static str, Relation, &'static str);

const RELATIONS: &[Stated] = &[
    ("dog", Relation::Broader, "animal"),
    ("dog", Relation::Syn, "hound"),
    ("Guide dog", Relation::Syn, "HOUND"),
    ("dog", Relation::Preferred, "is"),
];

fn term(alloc: Global, text: &str) -> Result<Term, Memory> {
    Term::of(alloc, text)?.ok_or(Memory)
}

/// The thesaurus of these relations.
fn thesaurus_of(alloc: Global, rows: &[Stated]) -> Result<Thesaurus, Memory> {
    let mut thesaurus = Thesaurus::new(alloc);
    for (a, relation, b) in rows {
        let first = term(alloc, a)?;
        let second = term(alloc, b)?;
        thesaurus
            .relate(&first, *relation, &second)
            .map_err(|_| Memory)?;
    }
    Ok(thesaurus)
}

/// The thesaurus `th`, with its name.
fn thesauri(alloc: Global) -> Result<Vec<NamedThesaurus>, Memory> {
    let name = section_name(alloc, "th")?;
    let thesaurus = thesaurus_of(alloc, RELATIONS)?;
    let mut thesauri = Vec::new(alloc);
    thesauri.push(NamedThesaurus { name, thesaurus })?;
    Ok(thesauri)
}

/// What a query is reduced to where `is` is a stopword.
fn shown(alloc: Global, query: &Query) -> Result<String, Memory>
    requires { keeps_limits (tree_of query.now) ≡ true }
{
    let lexer = LexerOptions::defaults(alloc)?;
    let stop = stop_keys(alloc)?;
    let group = group_of(alloc, SECTIONS)?;
    let thesauri = thesauri(alloc)?;
    let ctx = ReduceCtx {
        lexer: &lexer,
        stop: &stop,
        group: &group,
        thesauri: &thesauri,
    };
    reduced(alloc, query, &ctx)
}

// ---- queries with what they are reduced to

/// A query.
#[derive(Clone, Copy)]
enum Asked {
    Word(&'static str),
    Phrase(&'static str, &'static str, &'static str),
    /// Two words that EQUIV joins.
    Joined(&'static str, &'static str),
    Both(&'static str, &'static str),
    /// A word in a section.
    Within(&'static str, &'static str),
    /// A word in the second section, all of it in the first.
    Nested(&'static str, &'static str, &'static str),
    /// An operator over two words, the second of which may be empty, in a thesaurus.
    Expands(Relation, &'static str, &'static str, &'static str),
}

/// Two words, both of which have to be there.
fn both(alloc: Global, a: &str, b: &str) -> Result<Query, Memory>
    ensures { IfOk result (λ q. keeps_limits (tree_of q) ≡ true) }
{
    let first = plain(alloc, a)?;
    let second = plain(alloc, b)?;
    and(alloc, first, second)
}

fn word_within(alloc: Global, section: &str, text: &str) -> Result<Query, Memory>
    ensures { IfOk result (λ q. keeps_limits (tree_of q) ≡ true) }
{
    within(alloc, section_name(alloc, section)?, plain(alloc, text)?)
}

fn nested(alloc: Global, outer: &str, inner: &str, text: &str) -> Result<Query, Memory>
    ensures { IfOk result (λ q. keeps_limits (tree_of q) ≡ true) }
{
    within(
        alloc,
        section_name(alloc, outer)?,
        word_within(alloc, inner, text)?,
    )
}

/// An operator of a thesaurus over two words, with the level 1.
fn expansion(
    alloc: Global,
    relation: Relation,
    a: &str,
    b: &str,
    name: &str,
) -> Result<Query, Memory>
    ensures { IfOk result (λ q. keeps_limits (tree_of q) ≡ true) }
{
    let words = Listed::empty(alloc)
        .with(word(alloc, 1, a)?)?
        .with(word(alloc, 20, b)?)?;
    Ok(Query::Leaf(Leaf::Thes {
        relation,
        words,
        level: 1,
        thesaurus: section_name(alloc, name)?,
    }))
}

fn query_of(alloc: Global, asked: Asked) -> Result<Query, Memory>
    ensures { IfOk result (λ q. keeps_limits (tree_of q) ≡ true) }
{
    match asked {
        Asked::Word(a) => plain(alloc, a),
        Asked::Phrase(a, b, c) => phrase(alloc, a, b, c),
        Asked::Joined(a, b) => single(alloc, joined(alloc, a, b)?),
        Asked::Both(a, b) => both(alloc, a, b),
        Asked::Within(section, a) => word_within(alloc, section, a),
        Asked::Nested(outer, inner, a) => nested(alloc, outer, inner, a),
        Asked::Expands(relation, a, b, name) => expansion(alloc, relation, a, b, name),
    }
}

fn shown_of(alloc: Global, asked: Asked) -> Result<String, Memory> {
    let query = query_of(alloc, asked)?;
    shown(alloc, &query)
}

const QUERIES: &[(Asked, &str)] = &[
    (Asked::Phrase("Jack", "is", "big"), "jack * big "),
    (Asked::Phrase("is", "web-site", "is"), "web site "),
    (Asked::Word("is"), "nothing"),
    (Asked::Joined("web", "shop"), "shop web "),
    (
        Asked::Joined("web", "shop-window"),
        "the second word isn't one token",
    ),
    (Asked::Both("web", "shop"), "web and shop "),
    (Asked::Both("is", "shop"), "shop "),
    (Asked::Within("t", "web"), "web within the first field"),
    (Asked::Nested("z", "t", "web"), "a field inside: t"),
    (Asked::Within("s", "is"), "no section s"),
    (
        Asked::Expands(Relation::Broader, "Dog", "", "th"),
        "animal dog ",
    ),
    (
        Asked::Expands(Relation::Narrower, "animal", "", "th"),
        "animal dog ",
    ),
    (
        Asked::Expands(Relation::Syn, "guide", "DOG", "th"),
        "dog guide dog hound ",
    ),
    (
        Asked::Expands(Relation::Preferred, "dog", "", "th"),
        "nothing",
    ),
    (Asked::Expands(Relation::Syn, "", "", "th"), "nothing"),
    (
        Asked::Expands(Relation::Syn, "", "", "default"),
        "no thesaurus default",
    ),
];

#[test]
fn reductions(rt: HostRuntime) -> Result<(), Fail> {
    for (asked, line) in QUERIES {
        assert_eq!(rt; shown_of(rt.alloc(), *asked)?.as_str(), *line);
    }
    Ok(())
}

// ---- the thesauri that a text names

/// Their names, each with a blank behind it.
fn named(alloc: Global, text: &str) -> Result<String, Memory> {
    let query = parse(alloc, text).map_err(|_| Memory)?;
    let names = thesauri_in(alloc, &query)?;
    let mut line = String::new(alloc);
    for name in names.as_slice() {
        line.push_str(name.as_str())?;
        line.push(' ')?;
    }
    Ok(line)
}

#[test]
fn names(rt: HostRuntime) -> Result<(), Fail> {
    let text = "SYN(a,th) AND (BT(b,2) OR NEAR((PT(c,TH), NT(d)), 3)) NOT e";
    assert_eq!(rt; named(rt.alloc(), text)?.as_str(), "th default ");
    Ok(())
}
