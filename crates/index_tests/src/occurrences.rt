//! Where phrases start, and what stands near, on worked cases.

ghost use Rattle.std.specs.Prelude.{◌<◌, ◌^◌, length, IfOk};
ghost use Rattle.ix_spans.specs.InOrder.{EachInOrder};
ghost use Rattle.ix_spans.specs.Rising.{Rising};
ghost use Rattle.ix_spans.specs.Slots.{SlotRises, SlotsRise};
ghost use Rattle.ix_spans.specs.Views.{slot_view, slots_view, pairs_view};

use ct_base::{Memory, Pair};
use ix_spans::{in_order, near_holds, phrase_starts};
use std::alloc::Global;
use std::test::Fail;

/// A text whose words are letters, a phrase of such words (`%` is any), a range, and where the phrase starts within it.
type PhraseRow = (&'static [u8], &'static [u8], u32, u32, &'static [u32]);

const PHRASES: &[PhraseRow] = &[
    // the whole phrase stands in the range
    (b"abab", b"ab", 1, 4, &[1, 3]),
    (b"abab", b"ab", 2, 4, &[3]),
    (b"abab", b"ab", 1, 3, &[1]),
    // occurrences may overlap
    (b"aaaa", b"aa", 1, 4, &[1, 2, 3]),
    // any word has to be there
    (b"abcabdab", b"ab%", 1, 8, &[1, 4]),
    (b"abcabdab", b"a%d", 1, 8, &[4]),
    // the rarest word is the first, the middle or the last one
    (b"cabababd", b"cab", 1, 8, &[1]),
    (b"abacabab", b"aca", 1, 8, &[3]),
    (b"cabababd", b"abd", 1, 8, &[6]),
    // words that are there, in another order, and one that isn't
    (b"abab", b"bb", 1, 4, &[]),
    (b"abab", b"ac", 1, 4, &[]),
];

/// Operands, each by the starts and ends of its pairs; a span; whether they are ordered; and whether they stand near.
type NearRow = (&'static [&'static [(u32, u32)]], u32, bool, bool);

const NEAR: &[NearRow] = &[
    // the last word of all stands at most a span behind the first
    (&[&[(1, 1)], &[(5, 5)]], 4, false, true),
    (&[&[(1, 1)], &[(5, 5)]], 3, false, false),
    (&[&[(1, 1)], &[(5, 6)]], 4, false, false),
    (&[&[(3, 5)]], 1, false, false),
    (&[&[(1, 1)], &[(5, 6)]], 4, true, false),
    // in either order, unless they are ordered: then each begins behind the one before it
    (&[&[(5, 5)], &[(1, 1)]], 4, false, true),
    (&[&[(5, 5)], &[(1, 1)]], 4, true, false),
    (&[&[(7, 7)], &[(7, 7)]], 0, false, true),
    (&[&[(7, 7)], &[(7, 7)]], 4, true, false),
    (&[&[(7, 7)], &[(7, 7), (8, 8)]], 4, true, true),
    (&[&[(1, 1)], &[(3, 3)], &[(2, 2)]], 9, true, false),
    (&[&[(1, 1)], &[(3, 3)], &[(2, 2), (4, 4)]], 3, true, true),
    // far pairs stand before those that are near, and behind them
    (
        &[
            &[(1, 1), (20, 20), (41, 41), (90, 90)],
            &[(9, 9), (30, 30), (44, 44)],
        ],
        5,
        false,
        true,
    ),
    (
        &[
            &[(1, 1), (20, 20), (41, 41), (90, 90)],
            &[(9, 9), (30, 30), (47, 47)],
        ],
        5,
        false,
        false,
    ),
    // phrases of several lengths, in no order; a longer one that starts no later reaches out
    (&[&[(6, 6), (2, 9), (3, 4)], &[(5, 5)]], 2, true, true),
    (&[&[(2, 9), (3, 4)], &[(4, 8), (6, 6)]], 3, false, true),
    (&[&[(2, 9), (3, 4)], &[(4, 8), (6, 6)]], 2, false, false),
    // an operand that has no pair
    (&[&[(1, 1)], &[]], 100, false, false),
];

/// The positions of a word in a text, counted from 1.
fn positions(alloc: Global, text: &[u8], word: u8) -> Result<Vec<u32>, Memory>
    requires { length text.now < 2 ^ 32 }
    ensures { IfOk result (λ v. Rising v.items) }
{
    let mut found = Vec::new(alloc);
    let mut position = 0;
    for other in text {
        position += 1;
        if *other == word {
            found.push(position)?;
        }
    }
    Ok(found)
}

/// What a word of a phrase takes in a text.
fn slot(alloc: Global, text: &[u8], word: u8) -> Result<Option<Vec<u32>>, Memory>
    requires { length text.now < 2 ^ 32 }
    ensures { IfOk result (λ s. SlotRises (slot_view s)) }
{
    if word == b'%' {
        return Ok(None);
    }
    Ok(Some(positions(alloc, text, word)?))
}

fn slots(alloc: Global, text: &[u8], phrase: &[u8]) -> Result<Vec<Option<Vec<u32>>>, Memory>
    requires { length text.now < 2 ^ 32 }
    ensures { IfOk result (λ v. SlotsRise (slots_view v.items)) }
{
    let mut all = Vec::new(alloc);
    for word in phrase {
        all.push(slot(alloc, text, *word)?)?;
    }
    Ok(all)
}

/// The pairs of one operand.
fn pairs(alloc: Global, ends: &[(u32, u32)]) -> Result<Vec<Pair>, Memory> {
    let mut all = Vec::new(alloc);
    for (first, last) in ends {
        all.push(Pair {
            first: *first,
            last: *last,
        })?;
    }
    Ok(all)
}

/// Operands with the pairs of each in order.
fn operands(alloc: Global, rows: &[&[(u32, u32)]]) -> Result<Vec<Vec<Pair>>, Memory>
    ensures { IfOk result (λ v. EachInOrder (pairs_view v.items)) }
{
    let mut all = Vec::new(alloc);
    for row in rows {
        all.push(in_order(pairs(alloc, row)?)?)?;
    }
    Ok(all)
}

/// Where the phrase of a row starts.
fn starts_of(alloc: Global, row: &PhraseRow) -> Result<Vec<u32>, Memory> {
    let (text, phrase, lo, hi, _) = *row;
    if text.len() > 8 {
        return Err(Memory);
    }
    let slots = slots(alloc, text, phrase)?;
    let mut found = Vec::new(alloc);
    phrase_starts(&slots, lo, hi, &mut found)?;
    Ok(found)
}

#[test]
fn phrases_start(rt: HostRuntime) -> Result<(), Fail> {
    for row in PHRASES {
        let found = starts_of(rt.alloc(), row)?;
        assert_eq!(rt; found.as_slice(), row.4, "{row:?}");
    }
    Ok(())
}

fn is_near(alloc: Global, row: &NearRow) -> Result<bool, Memory> {
    let (rows, span, ordered, _) = *row;
    let operands = operands(alloc, rows)?;
    Ok(near_holds(&operands, span, ordered))
}

#[test]
fn operands_stand_near(rt: HostRuntime) -> Result<(), Fail> {
    for row in NEAR {
        assert!(rt; is_near(rt.alloc(), row)? == row.3, "{row:?}");
    }
    Ok(())
}
