//! Small feeds, and what queries over them give.

ghost use Rattle.std.specs.Prelude.{◌≡◌, ◌++◌, List, IfOk, IfSome};
ghost use Rattle.ix_posting.specs.Rows.{DocumentsRise, WordDocument};
ghost use Rattle.ix_posting.specs.Forms.{number_form, pair_form};
ghost use Rattle.ix_posting.specs.Lists.{posting_list};
ghost use Rattle.ix_cursor.specs.Reading.{TokensRise, SlotFeedsRise, SectionFeedsRise, FeedsRise};

use ct_base::{DocId, Listed, Memory, Name};
use ix_cursor::{Candidates, Cursor, Feeds, SectionFeed, SlotFeed};
use ix_posting::{EncodedRow, EncodedRows, Row, RowDocument};
use ix_slots::SlotList;
use q_tree::{Flat, Phrases, Place, Slot, SumStep};
use std::alloc::Global;
use std::test::Fail;
use tx_chars::Key;

// ---- what is read

/// `a` stands at 1 and 3 in the document 1, and at 1 in 2; and in another row at 2 in 4, and at 7 in the last document, 4294967295.
const A: &[&[u8]] = &[
    &[2, 1, 2, 1, 2, 1, 1, 1],
    &[2, 4, 1, 2, 0xfb, 0xff, 0xff, 0xff, 0x0f, 1, 7],
];

/// `b` stands at 2 in the document 1, at 5 in 2, at 1 and 2 in 3, and at 8 in the last one.
const B: &[&[u8]] = &[&[
    4, 1, 1, 2, 1, 1, 5, 1, 2, 1, 1, 0xfc, 0xff, 0xff, 0xff, 0x0f, 1, 8,
]];

/// `c` stands at 3 and 4 in the document 1, and at 1 in 5.
const C: &[&[u8]] = &[&[2, 1, 2, 3, 1, 4, 1, 1]];

/// `a` stands in the first field at 1 in the document 3.
const FIELD: &[&[u8]] = &[&[1, 3, 1, 1]];

/// The sentences are 1 to 3 and 4 to 6 in the document 1, 1 to 4 and 5 to 8 in 2, and 7 to 9 in the last one.
const SENTENCES: &[u8] = &[
    3, 1, 2, 1, 2, 3, 2, 1, 2, 1, 3, 4, 3, 0xfd, 0xff, 0xff, 0xff, 0x0f, 1, 7, 2,
];

/// The zone `t` is 3 to 4 in the document 1, and 1 in 3.
const ZONE: &[u8] = &[2, 1, 1, 3, 1, 2, 1, 1, 0];

/// The last of documents that rise, where the first stands behind `before`.
fn last_behind(documents: &[RowDocument<u32>], before: u32) -> Option<u32>
    requires { DocumentsRise number_form 0 documents.now }
    ensures { IfSome result (λ last. (more : List WordDocument) → DocumentsRise number_form last more → DocumentsRise number_form before (documents.now ++ more)) }
{
    let mut last = before;
    let mut rest = documents;
    while let [first, more @ ..] = rest {
        if first.document <= last {
            return None;
        }
        last = first.document;
        rest = more;
    }
    Some(last)
}

/// The row that bytes spell, and its last document, where its first one stands behind `before`.
fn row(alloc: Global, bytes: &[u8], before: u32) -> Result<(EncodedRow<u32>, u32), Fail>
    ensures { IfOk result (λ r. (more : List WordDocument) → DocumentsRise number_form r.1 more → DocumentsRise number_form before (r.0 ++ more)) }
{
    let row = Row::<u32>::decode(alloc, bytes)?;
    let Some(last) = last_behind(row.documents(), before) else {
        return Err(Fail::new("the rows don't rise"));
    };
    let Some(encoded) = EncodedRow::of(Vec::from_slice(alloc, bytes)?) else {
        return Err(Fail::new("no row"));
    };
    Ok((encoded, last))
}

/// The rows of a token.
fn rows(alloc: Global, spelt: &[&[u8]]) -> Result<EncodedRows<u32>, Fail>
    ensures { IfOk result (λ r. DocumentsRise number_form 0 (posting_list r)) }
{
    let mut rows = Vec::new(alloc);
    let mut last = 0;
    for bytes in spelt {
        let (row, end) = row(alloc, bytes, last)?;
        rows.push(row)?;
        last = end;
    }
    Ok(EncodedRows::of(alloc, rows)?)
}

/// A slot with a key for each of these characters.
fn slot(alloc: Global, keys: &str) -> Result<Slot, Memory> {
    let mut listed = Listed::empty(alloc);
    for byte in keys.as_bytes() {
        listed = listed.with(Key::of(vec![in alloc; *byte]?))?;
    }
    Ok(Slot::Takes {
        keys: listed,
        patterns: Listed::empty(alloc),
    })
}

/// What is read for a slot in a stream.
fn slot_feed(
    alloc: Global,
    stream: u8,
    keys: &str,
    tokens: Vec<EncodedRows<u32>>,
) -> Result<SlotFeed, Memory>
    requires { TokensRise tokens.items }
    ensures { IfOk result (λ f. TokensRise f.tokens) }
{
    Ok(SlotFeed {
        stream,
        slot: slot(alloc, keys)?,
        tokens: Listed::of(tokens),
    })
}

/// What is read for a slot of one token.
fn single_feed(alloc: Global, stream: u8, key: &str, spelt: &[&[u8]]) -> Result<SlotFeed, Fail>
    ensures { IfOk result (λ f. TokensRise f.tokens) }
{
    let tokens = vec![in alloc; rows(alloc, spelt)?]?;
    Ok(slot_feed(alloc, stream, key, tokens)?)
}

/// What is read for a slot of `a` and `c`.
fn double_feed(alloc: Global) -> Result<SlotFeed, Fail>
    ensures { IfOk result (λ f. TokensRise f.tokens) }
{
    let tokens = vec![in alloc; rows(alloc, A)?, rows(alloc, C)?]?;
    Ok(slot_feed(alloc, 0, "ac", tokens)?)
}

fn slot_feeds(alloc: Global) -> Result<SlotList<SlotFeed>, Fail>
    ensures { IfOk result (λ fs. SlotFeedsRise fs) }
{
    let a = single_feed(alloc, 0, "a", A)?;
    let b = single_feed(alloc, 0, "b", B)?;
    let c = single_feed(alloc, 0, "c", C)?;
    let both = double_feed(alloc)?;
    let field = single_feed(alloc, 1, "a", FIELD)?;
    let feeds = SlotList::empty(alloc).with(alloc, a)?.with(alloc, b)?;
    let feeds = feeds.with(alloc, c)?.with(alloc, both)?;
    Ok(feeds.with(alloc, field)?)
}

/// What is read for a section.
fn section_feed(alloc: Global, name: &str, bytes: &[u8]) -> Result<SectionFeed, Fail>
    ensures { IfOk result (λ f. DocumentsRise pair_form 0 (posting_list f.rows)) }
{
    let section = Name::read(alloc, name)?;
    let Some(row) = EncodedRow::of(Vec::from_slice(alloc, bytes)?) else {
        return Err(Fail::new("no row"));
    };
    let rows = EncodedRows::of(alloc, vec![in alloc; row]?)?;
    Ok(SectionFeed { section, rows })
}

fn feeds(alloc: Global) -> Result<Feeds, Fail>
    ensures { IfOk result (λ f. FeedsRise f) }
{
    let slots = slot_feeds(alloc)?;
    let sentences = section_feed(alloc, "sentence", SENTENCES)?;
    let zone = section_feed(alloc, "t", ZONE)?;
    Ok(Feeds {
        slots,
        sections: Listed::of(vec![in alloc; sentences, zone]?),
    })
}

// ---- queries

fn slot_of(alloc: Global, letter: u8) -> Result<Slot, Memory> {
    match letter {
        b'?' => Ok(Slot::Any),
        b'm' => slot(alloc, "ac"),
        b'b' => slot(alloc, "b"),
        b'c' => slot(alloc, "c"),
        b'd' => slot(alloc, "d"),
        _ => slot(alloc, "a"),
    }
}

/// The term of one phrase: a letter is a word, `m` is a slot of `a` and `c`, and `?` takes any word.
fn phrases(alloc: Global, letters: &[u8]) -> Result<Phrases, Memory> {
    let mut slots = Listed::empty(alloc);
    for letter in letters {
        slots = slots.with(slot_of(alloc, *letter)?)?;
    }
    Listed::empty(alloc).with(slots)
}

/// Two words that stand at most two words apart.
fn near(alloc: Global, first: &[u8], second: &[u8], ordered: bool) -> Result<Flat, Memory> {
    let operands = Listed::empty(alloc)
        .with(phrases(alloc, first)?)?
        .with(phrases(alloc, second)?)?;
    Ok(Flat::Near {
        operands,
        span: 2,
        ordered,
    })
}

/// A term of `a` and `c`, whose score is ten times the number of its occurrences.
fn define(alloc: Global) -> Result<Flat, Memory> {
    let term = phrases(alloc, b"m")?;
    let sum = vec![in alloc; SumStep::Occurrence, SumStep::Number(10), SumStep::Times]?;
    Ok(Flat::Define(term, Listed::of(sum)))
}

/// The last part of a query.
fn one(alloc: Global, parts: &mut Vec<Flat>) -> Result<Box<Flat>, Fail> {
    let Some(part) = parts.pop() else {
        return Err(Fail::new("a part is missing"));
    };
    Ok(Box::new(alloc, part)?)
}

/// The last two parts of a query.
fn two(alloc: Global, parts: &mut Vec<Flat>) -> Result<(Box<Flat>, Box<Flat>), Fail> {
    let second = one(alloc, parts)?;
    let first = one(alloc, parts)?;
    Ok((first, second))
}

fn operator(alloc: Global, parts: &mut Vec<Flat>, letter: u8) -> Result<Flat, Fail> {
    let (a, b) = two(alloc, parts)?;
    match letter {
        b'&' => Ok(Flat::And(a, b)),
        b'|' => Ok(Flat::Or(a, b)),
        b'!' => Ok(Flat::Not(a, b)),
        _ => Ok(Flat::Minus(a, b)),
    }
}

fn changed(alloc: Global, parts: &mut Vec<Flat>, letter: u8) -> Result<Flat, Fail> {
    let part = one(alloc, parts)?;
    match letter {
        b'*' => Ok(Flat::Weight(15, part)),
        b'>' => Ok(Flat::Above(1, part)),
        b'S' => Ok(Flat::Within(Place::Sentence, part)),
        b'F' => Ok(Flat::Within(Place::Field(1), part)),
        _ => Ok(Flat::Within(Place::Zone(Name::read(alloc, "t")?), part)),
    }
}

fn part(alloc: Global, parts: &mut Vec<Flat>, letter: u8) -> Result<Flat, Fail> {
    match letter {
        b'&' | b'|' | b'!' | b'-' => operator(alloc, parts, letter),
        b'*' | b'>' | b'S' | b'F' | b'Z' => changed(alloc, parts, letter),
        b'N' => Ok(near(alloc, b"a", b"b", false)?),
        b'O' => Ok(near(alloc, b"b", b"a", true)?),
        b'D' => Ok(define(alloc)?),
        b'P' => Ok(Flat::Term(phrases(alloc, b"ab")?)),
        b'Q' => Ok(Flat::Term(phrases(alloc, b"a?c")?)),
        _ => Ok(Flat::Term(phrases(alloc, &[letter])?)),
    }
}

/// A query in postfix form. A small letter is a word, and `m` a slot of `a` and `c`; `P` is the phrase `a b`, and `Q` the phrase of
/// `a`, any word and `c`; `N` is `a` near `b`, and `O` is `b` near `a` in that order, each within two words; `D` is DEFINESCORE of `m`, as
/// ten times the number of its occurrences. Behind two parts stand
/// `&`, `|`, `!` for NOT and `-`; behind one part `*` for a weight of 1.5, `>` for above 1, `S` for within a sentence, `Z` for
/// within the zone `t`, and `F` for within the first field.
pub(crate) fn query(alloc: Global, text: &[u8]) -> Result<Flat, Fail> {
    let mut parts = Vec::new(alloc);
    for letter in text {
        let part = part(alloc, &mut parts, *letter)?;
        parts.push(part)?;
    }
    match parts.pop() {
        Some(query) => Ok(query),
        None => Err(Fail::new("a query is missing")),
    }
}

fn cursor(alloc: Global, text: &[u8]) -> Result<Cursor, Fail> {
    let feeds = feeds(alloc)?;
    let query = query(alloc, text)?;
    if !query.is_sound() {
        return Err(Fail::new("no such query"));
    }
    Ok(Cursor::build(alloc, &query, &feeds)?)
}

fn candidates(alloc: Global, text: &[u8]) -> Result<Candidates, Fail> {
    let feeds = feeds(alloc)?;
    let query = query(alloc, text)?;
    if !query.is_sound() {
        return Err(Fail::new("no such query"));
    }
    Ok(Candidates::build(alloc, &query, &feeds)?)
}

// ---- what they give

/// The documents that a query scores, with their scores, ten at most.
fn scored(alloc: Global, text: &[u8]) -> Result<Vec<(u32, u32)>, Fail> {
    let mut cursor = cursor(alloc, text)?;
    let mut found = Vec::new(alloc);
    let mut to = 0;
    for _ in 0..10 {
        let Some(document) = cursor.advance(alloc, DocId(to))? else {
            break;
        };
        found.push((document.0, cursor.score()))?;
        if document.0 == LAST {
            break;
        }
        to = document.0 + 1;
    }
    Ok(found)
}

/// The documents that a query may score, ten at most.
fn possible(alloc: Global, text: &[u8]) -> Result<Vec<u32>, Fail> {
    let mut candidates = candidates(alloc, text)?;
    let mut found = Vec::new(alloc);
    for _ in 0..10 {
        let Some(document) = candidates.next(alloc)? else {
            break;
        };
        found.push(document.0)?;
    }
    Ok(found)
}

/// The greatest number of a document.
const LAST: u32 = 4_294_967_295;

pub(crate) struct Case {
    pub(crate) query: &'static str,
    pub(crate) scored: &'static [(u32, u32)],
    possible: &'static [u32],
}

pub(crate) const CASES: &[Case] = &[
    Case {
        query: "a",
        scored: &[(1, 2), (2, 1), (4, 1), (LAST, 1)],
        possible: &[1, 2, 4, LAST],
    },
    // the positions 1 and 3 of `a` and 3 and 4 of `c` are three
    Case {
        query: "m",
        scored: &[(1, 3), (2, 1), (4, 1), (5, 1), (LAST, 1)],
        possible: &[1, 2, 4, 5, LAST],
    },
    Case {
        query: "P",
        scored: &[(1, 1), (LAST, 1)],
        possible: &[1, 2, LAST],
    },
    Case {
        query: "Q",
        scored: &[(1, 1)],
        possible: &[1],
    },
    Case {
        query: "ab&",
        scored: &[(1, 1), (2, 1), (LAST, 1)],
        possible: &[1, 2, LAST],
    },
    Case {
        query: "ab|",
        scored: &[(1, 2), (2, 1), (3, 2), (4, 1), (LAST, 1)],
        possible: &[1, 2, 3, 4, LAST],
    },
    Case {
        query: "ab!",
        scored: &[(4, 1)],
        possible: &[1, 2, 4, LAST],
    },
    Case {
        query: "ab-",
        scored: &[(1, 1), (4, 1)],
        possible: &[1, 2, 4, LAST],
    },
    // 1 less 2 is 0
    Case {
        query: "ba-",
        scored: &[(3, 2)],
        possible: &[1, 2, 3, LAST],
    },
    // 1.5 is rounded up
    Case {
        query: "a*",
        scored: &[(1, 3), (2, 2), (4, 2), (LAST, 2)],
        possible: &[1, 2, 4, LAST],
    },
    Case {
        query: "a>",
        scored: &[(1, 2)],
        possible: &[1, 2, 4, LAST],
    },
    Case {
        query: "N",
        scored: &[(1, 100), (LAST, 100)],
        possible: &[1, 2, LAST],
    },
    Case {
        query: "O",
        scored: &[(1, 100)],
        possible: &[1, 2, LAST],
    },
    Case {
        query: "aS",
        scored: &[(1, 2), (2, 1), (LAST, 1)],
        possible: &[1, 2, LAST],
    },
    // in 2 the words stand in two sentences
    Case {
        query: "ab&S",
        scored: &[(1, 1), (LAST, 1)],
        possible: &[1, 2, LAST],
    },
    // in 2 a sentence has `a` and not `b`, though the whole document has both
    Case {
        query: "ab!S",
        scored: &[(2, 1)],
        possible: &[1, 2, LAST],
    },
    Case {
        query: "mZ",
        scored: &[(1, 2)],
        possible: &[1],
    },
    Case {
        query: "D",
        scored: &[(1, 30), (2, 10), (4, 10), (5, 10), (LAST, 10)],
        possible: &[1, 2, 4, 5, LAST],
    },
    // in the zone `c` stands at 3 and 4, and `a` at 3
    Case {
        query: "DZ",
        scored: &[(1, 20)],
        possible: &[1],
    },
    // no sentence lies in the zone
    Case {
        query: "aSZ",
        scored: &[],
        possible: &[1],
    },
    Case {
        query: "aF",
        scored: &[(3, 1)],
        possible: &[3],
    },
    // `c` is in no document behind 5, and the AND has ended there
    Case {
        query: "bc&",
        scored: &[(1, 1)],
        possible: &[1],
    },
    Case {
        query: "bc&a|",
        scored: &[(1, 2), (2, 1), (4, 1), (LAST, 1)],
        possible: &[1, 2, 4, LAST],
    },
    // `d` was not read
    Case {
        query: "da!",
        scored: &[],
        possible: &[],
    },
    Case {
        query: "ad!",
        scored: &[(1, 2), (2, 1), (4, 1), (LAST, 1)],
        possible: &[1, 2, 4, LAST],
    },
];

#[test]
fn queries_give_what_they_score(rt: HostRuntime) -> Result<(), Fail> {
    for case in CASES {
        let found = scored(rt.alloc(), case.query.as_bytes())?;
        assert_eq!(rt; found.as_slice(), case.scored, "{}", case.query);
    }
    Ok(())
}

#[test]
fn candidates_are_those_not_ruled_out(rt: HostRuntime) -> Result<(), Fail> {
    for case in CASES {
        let found = possible(rt.alloc(), case.query.as_bytes())?;
        assert_eq!(rt; found.as_slice(), case.possible, "{}", case.query);
    }
    Ok(())
}

/// Where a cursor stands after each of these calls, with the score there; 0 where no document is left.
fn leaps(alloc: Global, text: &[u8], to: &[u32]) -> Result<Vec<(u32, u32)>, Fail> {
    let mut cursor = cursor(alloc, text)?;
    let mut found = Vec::new(alloc);
    for document in to {
        let at = cursor.advance(alloc, DocId(*document))?;
        found.push((at.map_or(0, |d| d.0), cursor.score()))?;
    }
    Ok(found)
}

/// A query, where a cursor over it is to leap, and where it stands then.
type Leaps = (&'static [u8], &'static [u32], &'static [(u32, u32)]);

const LEAPS: &[Leaps] = &[
    (
        b"ab|",
        &[2, 1, 5, 0, LAST],
        &[(2, 1), (2, 1), (LAST, 1), (LAST, 1), (LAST, 1)],
    ),
    (b"ab!", &[3, 5, 0], &[(4, 1), (0, 0), (0, 0)]),
];

#[test]
fn cursors_leap_and_never_go_back(rt: HostRuntime) -> Result<(), Fail> {
    for (query, to, places) in LEAPS {
        let found = leaps(rt.alloc(), query, to)?;
        assert_eq!(rt; found.as_slice(), *places);
    }
    Ok(())
}

/// `a` with so many weights around it.
fn nested(alloc: Global, weights: usize) -> Result<Vec<u8>, Memory> {
    let mut text = vec![in alloc; b'a']?;
    for _ in 0..weights {
        text.push(b'*')?;
    }
    Ok(text)
}

#[test]
fn queries_may_nest(rt: HostRuntime) -> Result<(), Fail> {
    let text = nested(rt.alloc(), 1100)?;
    let found = leaps(rt.alloc(), text.as_slice(), &[2])?;
    assert_eq!(rt; found.as_slice(), [(2, 100)].as_slice());
    Ok(())
}
