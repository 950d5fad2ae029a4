//! What inversions give, and that two parts are worked at once.

ghost use Rattle.std.specs.Prelude.{◌≡◌, ◌+◌, ◌<◌, ◌^◌, ◌∷◌, [], IfOk, length};
ghost use Rattle.ix_invert.specs.Inverting.{posting};

use ct_base::{DocId, Memory, Pair, Pairs, Text};
use ix_invert::{Piece, Posting, invert};
use std::alloc::Global;
use std::sync::atomic::{AtomicBool, Ordering};
use std::test::Fail;
use std::thread;
use std::thread::Threads;
use tx_chars::Key;

/// How often one text's reader looks for the other's flag.
const TURNS: u32 = 200_000;

/// Its two readers raise a flag each, and look for that of the other.
#[derive(Drop)]
struct Meeting {
    first: AtomicBool,
    second: AtomicBool,
    first_met: AtomicBool,
    second_met: AtomicBool,
}

/// Raises a flag and looks for another; notes whether it was seen.
fn meet(mine: &AtomicBool, other: &AtomicBool, met: &AtomicBool) {
    mine.store(true, Ordering::SeqCst);
    for _ in 0..TURNS {
        if other.load(Ordering::SeqCst) {
            met.store(true, Ordering::SeqCst);
            return;
        }
        thread::yield_now();
    }
}

impl Piece for Meeting {
    ghost use Rattle.std.specs.Prelude.{[]};

    ghost postings = { λ m n t. [] };

    fn entries(&self, alloc: Global, number: u32, _text: &str) -> Result<Vec<Posting>, Memory> {
        if number == 1 {
            meet(&self.first, &self.second, &self.first_met);
        } else {
            meet(&self.second, &self.first, &self.second_met);
        }
        Ok(Vec::new(alloc))
    }
}

/// Whether both readers of two texts saw the other's flag, with so many threads.
fn both_met<R: Threads + Sync>(rt: &R, alloc: Global, degree: u32) -> Result<bool, Memory> {
    let meeting = Meeting {
        first: AtomicBool::new(false),
        second: AtomicBool::new(false),
        first_met: AtomicBool::new(false),
        second_met: AtomicBool::new(false),
    };
    let texts = [Text::of(alloc, "a")?, Text::of(alloc, "b")?];
    invert(rt, alloc, &meeting, 1, &texts, degree)?;
    Ok(meeting.first_met.load(Ordering::SeqCst) && meeting.second_met.load(Ordering::SeqCst))
}

#[test]
fn two_parts_at_once(rt: HostRuntime) -> Result<(), Fail> {
    let alloc = rt.alloc();
    assert!(rt; both_met(&rt, alloc, 2)?);
    assert!(rt; !both_met(&rt, alloc, 1)?);
    Ok(())
}

/// Reads the first text as `b a`, and every other one as `a`.
#[derive(Drop)]
struct Letters;

/// A letter of a document in the main stream, at one position.
fn posting(alloc: Global, letter: u8, document: u32, position: u32) -> Result<Posting, Memory>
    ensures { IfOk result (λ p. p ≡ posting 0 (letter ∷ []) document position) }
{
    let mut token = Vec::new(alloc);
    token.push(letter)?;
    let mut places = Vec::new(alloc);
    places.push(Pair {
        first: position,
        last: position,
    })?;
    Ok(Posting {
        stream: 0,
        token: Key::of(token),
        doc: DocId(document),
        places: Pairs::of(places),
    })
}

/// The postings of `b a` as the document 1.
fn two_letters(alloc: Global) -> Result<Vec<Posting>, Memory>
    ensures { IfOk result (λ v. v.items ≡ posting 0 (98 ∷ []) 1 1 ∷ posting 0 (97 ∷ []) 1 2 ∷ []) }
{
    let mut postings = Vec::new(alloc);
    postings.push(posting(alloc, b'b', 1, 1)?)?;
    postings.push(posting(alloc, b'a', 1, 2)?)?;
    Ok(postings)
}

/// The posting of `a` as this document.
fn one_letter(alloc: Global, document: u32) -> Result<Vec<Posting>, Memory>
    ensures { IfOk result (λ v. v.items ≡ posting 0 (97 ∷ []) document 1 ∷ []) }
{
    let mut postings = Vec::new(alloc);
    postings.push(posting(alloc, b'a', document, 1)?)?;
    Ok(postings)
}

impl Piece for Letters {
    ghost use Rattle.std.specs.Prelude.{◌==◌, ◌∷◌, []};
    ghost use Rattle.std.specs.Bool.{if◌then◌else◌};
    ghost use Rattle.ix_invert.specs.Inverting.{posting};

    ghost postings = { λ m n t. if n == 1 then posting 0 (98 ∷ []) 1 1 ∷ posting 0 (97 ∷ []) 1 2 ∷ [] else posting 0 (97 ∷ []) n 1 ∷ [] };

    fn entries(&self, alloc: Global, number: u32, _text: &str) -> Result<Vec<Posting>, Memory> {
        if number == 1 {
            two_letters(alloc)
        } else {
            one_letter(alloc, number)
        }
    }
}

/// The inversion of texts, with so many threads, as text: of each posting its letter, its document and its position.
fn inverted<R: Threads + Sync>(
    rt: &R,
    alloc: Global,
    texts: &[Text],
    degree: u32,
) -> Result<Vec<u8>, Memory>
    requires { 1 + length texts.now < 2 ^ 32 }
{
    let mut seen = Vec::new(alloc);
    for posting in invert(rt, alloc, &Letters, 1, texts, degree)? {
        seen.extend_from_slice(posting.token.as_slice())?;
        seen.push((posting.doc.0 % 10) as u8 + b'0')?;
        for place in posting.places.as_slice() {
            seen.push((place.first % 10) as u8 + b'0')?;
        }
    }
    Ok(seen)
}

#[test]
fn by_letter_and_then_by_document(rt: HostRuntime) -> Result<(), Fail> {
    let alloc = rt.alloc();
    let texts = [
        Text::of(alloc, "b a")?,
        Text::of(alloc, "a")?,
        Text::of(alloc, "a")?,
    ];
    for (count, degree, want) in [
        (0, 0, ""),
        (0, 1, ""),
        (0, 16, ""),
        (2, 1, "a12a21b11"),
        (2, 2, "a12a21b11"),
        (3, 2, "a12a21a31b11"),
        (3, 16, "a12a21a31b11"),
    ] {
        let seen = inverted(&rt, alloc, &texts[..count], degree)?;
        assert_eq!(rt;
            seen.as_slice(),
            want.as_bytes(),
            "{count} texts, {degree} threads"
        );
    }
    Ok(())
}

/// Asks for more memory than there is, to read one of its texts.
#[derive(Drop)]
struct Greedy {
    document: u32,
}

/// More postings than any memory holds.
const TOO_MANY: usize = 1 << 60;

impl Piece for Greedy {
    ghost use Rattle.std.specs.Prelude.{[]};

    ghost postings = { λ m n t. [] };

    fn entries(&self, alloc: Global, number: u32, _text: &str) -> Result<Vec<Posting>, Memory> {
        let mut postings = Vec::new(alloc);
        if number == self.document {
            postings.reserve(TOO_MANY)?;
        }
        Ok(postings)
    }
}

/// Whether three texts are refused for want of memory, where this document asks for too much, with so many threads.
fn is_refused<R: Threads + Sync>(
    rt: &R,
    alloc: Global,
    document: u32,
    degree: u32,
) -> Result<bool, Memory> {
    let texts = [
        Text::of(alloc, "a")?,
        Text::of(alloc, "b")?,
        Text::of(alloc, "c")?,
    ];
    let found = invert(rt, alloc, &Greedy { document }, 1, &texts, degree);
    Ok(found.is_err())
}

/// Where memory is wanting in one part, it is for all.
#[test]
fn memory_wanting_in_a_part(rt: HostRuntime) -> Result<(), Fail> {
    let alloc = rt.alloc();
    for (document, degree, want) in [
        (1, 1, true),
        (1, 2, true),
        (2, 3, true),
        (3, 2, true),
        (3, 16, true),
        (4, 2, false),
    ] {
        let is = is_refused(&rt, alloc, document, degree)?;
        assert_eq!(rt; is, want, "the document {document}, {degree} threads");
    }
    Ok(())
}
