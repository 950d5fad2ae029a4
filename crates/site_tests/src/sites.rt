//! The sites in memory over tables of calls, and the real site over a file.

ghost use Rattle.std.specs.Prelude.{◌≡◌, IfOk, length, vec_len};

use crate::real_sites::temp_path;
use ct_base::{Memory, Numbers};
use ct_site::{Disk, Faults, MemSite, Pick, QuietSite, RealSite, Rooms, Site};
use std::alloc::Global;
use std::fs;
use std::test::Fail;

/// A call of a site. A read or a write asks for the size first, which is a call of the disk too.
#[derive(Clone, Copy)]
enum Call {
    Hear(usize),
    Say(&'static str),
    Size,
    Read(u64, usize),
    Write(u64, &'static str),
    Sync,
}

/// What is answered: the bytes heard or read, or a count, or a point where there is nothing to tell. A fault is a minus.
fn answer<S: Site>(alloc: Global, site: &mut S, call: Call) -> Result<Vec<u8>, Memory> {
    match call {
        Call::Hear(count) => heard(alloc, site, count),
        Call::Say(text) => said(alloc, site, text),
        Call::Size => size(alloc, site),
        Call::Read(at, count) => read(alloc, site, at, count),
        Call::Write(at, text) => written(alloc, site, at, text),
        Call::Sync => match site.sync() {
            Ok(()) => bytes_of(alloc, b"."),
            Err(_) => bytes_of(alloc, b"-"),
        },
    }
}

fn heard<S: Site>(alloc: Global, site: &mut S, count: usize) -> Result<Vec<u8>, Memory> {
    let mut bytes = Vec::from_elem(alloc, 0u8, count)?;
    if count > 0 {
        match site.hear(&mut bytes) {
            Ok(count) => bytes.truncate(count),
            Err(_) => return bytes_of(alloc, b"-"),
        }
    }
    Ok(bytes)
}

fn said<S: Site>(alloc: Global, site: &mut S, text: &str) -> Result<Vec<u8>, Memory> {
    if text.is_empty() {
        return Ok(Vec::new(alloc));
    }
    match site.say(text.as_bytes()) {
        Ok(count) => count_text(alloc, count as u64),
        Err(_) => bytes_of(alloc, b"-"),
    }
}

fn size<S: Site>(alloc: Global, site: &mut S) -> Result<Vec<u8>, Memory> {
    match site.size() {
        Ok(count) => count_text(alloc, count),
        Err(_) => bytes_of(alloc, b"-"),
    }
}

fn read<D: Disk>(alloc: Global, disk: &mut D, at: u64, count: usize) -> Result<Vec<u8>, Memory> {
    let mut bytes = Vec::from_elem(alloc, 0u8, count)?;
    if let Ok(size) = disk.size()
        && at <= size
        && count as u64 <= size - at
        && disk.read(at, &mut bytes).is_ok()
    {
        return Ok(bytes);
    }
    bytes_of(alloc, b"-")
}

fn written<D: Disk>(alloc: Global, disk: &mut D, at: u64, text: &str) -> Result<Vec<u8>, Memory> {
    if let Ok(size) = disk.size()
        && at <= size
        && !text.is_empty()
        && disk.write_at(at, text.as_bytes()).is_ok()
    {
        return bytes_of(alloc, b".");
    }
    bytes_of(alloc, b"-")
}

fn bytes_of(alloc: Global, bytes: &[u8]) -> Result<Vec<u8>, Memory>
    ensures { IfOk result (λ v. vec_len v ≡ length bytes.now) }
{
    Ok(Vec::from_slice(alloc, bytes)?)
}

fn count_text(alloc: Global, count: u64) -> Result<Vec<u8>, Memory> {
    let text = format!(in alloc; "{count}")?;
    bytes_of(alloc, text.as_bytes())
}

/// The answers, with a blank behind each.
fn answers<S: Site>(alloc: Global, site: &mut S, calls: &[Call]) -> Result<Vec<u8>, Memory> {
    let mut all = Vec::new(alloc);
    for call in calls {
        let answer = answer(alloc, site, *call)?;
        all.extend_from_slice(&answer)?;
        all.push(b' ')?;
    }
    Ok(all)
}

const AMPLE: Rooms = Rooms {
    image: 100,
    said: 100,
    calls: 100,
    written: 100,
};

const SCRIPT: &[u8] = b"abcdefg";

const IMAGE: &[u8] = b"wxyz";

/// What comes of the calls over a site that begins with `SCRIPT` and `IMAGE`: the answers, then what was said, then the image.
struct Row {
    rooms: Rooms,
    calls: &'static [Call],
    outcome: &'static str,
}

const ROWS: &[Row] = &[
    Row {
        rooms: AMPLE,
        calls: &[Call::Hear(3), Call::Hear(3), Call::Hear(3), Call::Hear(3)],
        outcome: "abc def g  || wxyz",
    },
    Row {
        rooms: AMPLE,
        calls: &[
            Call::Write(1, "XY"),
            Call::Read(0, 4),
            Call::Write(4, "12"),
            Call::Write(5, "345"),
            Call::Size,
            Call::Read(2, 6),
            Call::Sync,
        ],
        outcome: ". wXYz . . 8 Yz1345 . || wXYz1345",
    },
    Row {
        rooms: Rooms { said: 5, ..AMPLE },
        calls: &[
            Call::Say("one"),
            Call::Say("two"),
            Call::Say("to"),
            Call::Say("x"),
        ],
        outcome: "3 - 2 - |oneto| wxyz",
    },
    Row {
        rooms: Rooms { image: 6, ..AMPLE },
        calls: &[
            Call::Write(4, "123"),
            Call::Write(3, "123"),
            Call::Write(6, "x"),
            Call::Write(5, "x"),
        ],
        outcome: "- . - . || wxy12x",
    },
    Row {
        rooms: Rooms { calls: 3, ..AMPLE },
        calls: &[
            Call::Say("a"),
            Call::Sync,
            Call::Write(0, "b"),
            Call::Sync,
            Call::Write(0, "c"),
            Call::Say("d"),
            Call::Hear(1),
            Call::Size,
            Call::Read(0, 1),
        ],
        outcome: "1 . . - - - a 4 b |a| bxyz",
    },
    Row {
        rooms: Rooms {
            written: 3,
            ..AMPLE
        },
        calls: &[
            Call::Write(0, "12"),
            Call::Write(0, "34"),
            Call::Write(0, "5"),
            Call::Write(0, "6"),
            Call::Say("abcd"),
        ],
        outcome: ". - . - 4 |abcd| 52yz",
    },
];

/// The outcome, from its parts.
fn outcome(mut all: Vec<u8>, said: &[u8], image: &[u8]) -> Result<Vec<u8>, Memory> {
    all.push(b'|')?;
    all.extend_from_slice(said)?;
    all.extend_from_slice(b"| ")?;
    all.extend_from_slice(image)?;
    Ok(all)
}

fn over_memory(
    alloc: Global,
    faults: Faults,
    rooms: Rooms,
    calls: &[Call],
) -> Result<Vec<u8>, Memory> {
    let script = bytes_of(alloc, SCRIPT)?;
    let image = bytes_of(alloc, IMAGE)?;
    if image.len() > rooms.image {
        return Ok(Vec::new(alloc));
    }
    let mut site = MemSite::new(alloc, script, image, faults, rooms)?;
    let all = answers(alloc, &mut site, calls)?;
    outcome(all, site.said(), site.image())
}

fn over_quiet(alloc: Global, rooms: Rooms, calls: &[Call]) -> Result<Vec<u8>, Memory> {
    let script = bytes_of(alloc, SCRIPT)?;
    let image = bytes_of(alloc, IMAGE)?;
    if image.len() > rooms.image {
        return Ok(Vec::new(alloc));
    }
    let mut site = QuietSite::new(alloc, script, image, rooms)?;
    let all = answers(alloc, &mut site, calls)?;
    outcome(all, site.said(), site.image())
}

/// Whether both sites in memory have the outcome of a row.
fn is_outcome(alloc: Global, row: &Row) -> Result<bool, Memory> {
    let quiet = over_quiet(alloc, row.rooms, row.calls)?;
    let memory = over_memory(alloc, Faults::none(alloc), row.rooms, row.calls)?;
    let wanted = row.outcome.as_bytes();
    Ok(quiet.as_slice() == wanted && memory.as_slice() == wanted)
}

#[test]
fn rooms_are_filled_and_not_passed(rt: HostRuntime) -> Result<(), Fail> {
    for row in ROWS {
        assert!(rt; is_outcome(rt.alloc(), row)?, "{}", row.outcome);
    }
    Ok(())
}

/// The calls that fail, and what comes of some calls.
struct Faulty {
    hear: &'static [u64],
    say: &'static [u64],
    disk: &'static [u64],
    stop: Option<u64>,
    calls: &'static [Call],
    outcome: &'static str,
}

const FAULTY: &[Faulty] = &[
    // listed calls fail
    Faulty {
        hear: &[2],
        say: &[3, 1],
        disk: &[3, 5],
        stop: None,
        calls: &[
            Call::Hear(4),
            Call::Hear(4),
            Call::Hear(4),
            Call::Say("lost"),
            Call::Say("told"),
            Call::Say("lost"),
            Call::Write(0, "ab"),
            Call::Sync,
            Call::Write(1, "lost"),
            Call::Write(1, "cd"),
            Call::Sync,
            Call::Size,
        ],
        outcome: "abcd - efg - 4 - . - - . . 4 |told| acdz",
    },
    // no call succeeds after the stop
    Faulty {
        hear: &[],
        say: &[],
        disk: &[],
        stop: Some(4),
        calls: &[
            Call::Hear(3),
            Call::Say("one"),
            Call::Write(0, "ab"),
            Call::Sync,
            Call::Hear(3),
            Call::Say("two"),
            Call::Size,
        ],
        outcome: "abc 3 . - - - - |one| abyz",
    },
];

fn numbers(alloc: Global, numbers: &[u64]) -> Result<Numbers, Memory> {
    Ok(Numbers::of(Vec::from_slice(alloc, numbers)?))
}

fn faults_of(alloc: Global, row: &Faulty) -> Result<Faults, Memory> {
    Ok(Faults {
        hear: numbers(alloc, row.hear)?,
        say: numbers(alloc, row.say)?,
        disk: numbers(alloc, row.disk)?,
        stop: row.stop,
    })
}

fn over_faults(alloc: Global, row: &Faulty) -> Result<Vec<u8>, Memory> {
    let faults = faults_of(alloc, row)?;
    over_memory(alloc, faults, AMPLE, row.calls)
}

#[test]
fn listed_calls_and_those_after_the_stop_fail(rt: HostRuntime) -> Result<(), Fail> {
    for row in FAULTY {
        let found = over_faults(rt.alloc(), row)?;
        assert_eq!(rt; found.as_slice(), row.outcome.as_bytes());
    }
    Ok(())
}

const UNSYNCED: &[Call] = &[
    Call::Write(1, "XY"),
    Call::Sync,
    Call::Write(3, "12"),
    Call::Say("told"),
];

/// The image that a crash leaves after these calls.
fn crashed(alloc: Global, pick: Pick) -> Result<Vec<u8>, Memory> {
    let script = bytes_of(alloc, SCRIPT)?;
    let image = bytes_of(alloc, IMAGE)?;
    if image.len() > AMPLE.image {
        return Ok(Vec::new(alloc));
    }
    let mut site = MemSite::new(alloc, script, image, Faults::none(alloc), AMPLE)?;
    let _ = answers(alloc, &mut site, UNSYNCED)?;
    site.crash(alloc, pick)
}

const LEFT: &[(Pick, &[u8])] = &[
    (Pick::Old, b"wXYz"),
    (Pick::New, b"wXY12"),
    (Pick::Zeros, b"wXY\0\0"),
    (Pick::Ones, b"wXY\xff\xff"),
];

#[test]
fn a_crash_leaves_what_was_synced_and_what_is_picked(rt: HostRuntime) -> Result<(), Fail> {
    for (pick, image) in LEFT {
        let left = crashed(rt.alloc(), *pick)?;
        assert_eq!(rt; left.as_slice(), *image);
    }
    Ok(())
}

const FILED: &[Call] = &[
    Call::Size,
    Call::Write(0, "wxyz"),
    Call::Write(1, "XY"),
    Call::Write(3, "12"),
    Call::Sync,
    Call::Size,
    Call::Read(1, 3),
];

/// The answers over the file, and whether a write past the longest image fails.
fn over_file(rt: &HostRuntime, path: &str) -> Result<Vec<u8>, Memory> {
    let mut site = RealSite::new(rt, Some(path));
    let mut all = answers(rt.alloc(), &mut site, FILED)?;
    if site.write_at(1 << 43, b"x").is_err() {
        all.push(b'-')?;
    }
    Ok(all)
}

#[test]
fn a_file_is_a_disk(rt: HostRuntime) -> Result<(), Fail> {
    let path = temp_path(&rt, "image")?;
    let all = over_file(&rt, path.as_str());
    let _ = fs::remove_file(&rt, path.as_str());
    assert_eq!(rt; all?.as_slice(), b"0 . . . . 5 XY1 -".as_slice());
    Ok(())
}

fn over_no_path(rt: &HostRuntime) -> Result<Vec<u8>, Memory> {
    let mut site = RealSite::new(rt, None);
    answers(rt.alloc(), &mut site, &[Call::Size, Call::Sync])
}

#[test]
fn no_path_is_no_disk(rt: HostRuntime) -> Result<(), Fail> {
    let all = over_no_path(&rt)?;
    assert_eq!(rt; all.as_slice(), b"- - ".as_slice());
    Ok(())
}
