//! Runs over a site in memory that hears and says in pieces, and over keepers in memory.
#![tactic(auto)]

use ct_base::{Memory, Numbers};
use ct_keep::MemKeeper;
use ct_site::{Disk, Failed, Faults, MemSite, QuietSite, Rooms, Site};
use db_console::{run, serve};
use std::alloc::Global;
use std::test::Fail;
use std::thread::Threads;

/// A site in memory of which one call hears or says at most so many bytes.
#[derive(Drop)]
struct PieceSite {
    site: MemSite,
    piece: usize,
}

impl Disk for PieceSite {
    ghost use Rattle.ct_site.specs.Memory.{memory_view};
    ghost use Rattle.ct_site.specs.Changing.{may_stay, counts_now, only_now};

    ghost disk = { λ s. memory_view s.site };

    fn size(&mut self) -> Result<u64, Failed> {
        self.site.size()
    }

    fn read(&mut self, at: u64, into: &mut [u8]) -> Result<(), Failed> {
        self.site.read(at, into)
    }

    fn write_at(&mut self, at: u64, bytes: &[u8]) -> Result<(), Failed> {
        self.site.write_at(at, bytes)
    }

    fn sync(&mut self) -> Result<(), Failed> {
        self.site.sync()
    }

    ghost may_stay = { λ s. may_stay s.site };

    ghost counts_now = { λ s. counts_now s.site };

    ghost only_now = { λ s. only_now s.site };
}

impl Site for PieceSite {
    fn hear(&mut self, into: &mut [u8]) -> Result<usize, Failed> {
        let count = self.piece.max(1).min(into.len());
        self.site.hear(&mut into[..count])
    }

    fn say(&mut self, bytes: &[u8]) -> Result<usize, Failed> {
        let count = self.piece.max(1).min(bytes.len());
        self.site.say(&bytes[..count])
    }
}

/// Rooms that no run here fills.
pub(crate) const AMPLE: Rooms = Rooms {
    image: 1_000_000,
    said: 4096,
    calls: 10_000,
    written: 4_000_000,
};

/// The arguments that name a FILE.
pub(crate) fn arguments(alloc: Global) -> Result<[String; 1], Memory> {
    Ok([String::from_str(alloc, "store.ctx")?])
}

/// A site with this script, which comes in pieces of so many bytes, and on which these calls fail.
fn site_of(
    alloc: Global,
    script: &[u8],
    piece: usize,
    hear: &[u64],
    say: &[u64],
) -> Result<PieceSite, Memory> {
    let script = Vec::from_slice(alloc, script)?;
    let faults = Faults {
        hear: Numbers::of(Vec::from_slice(alloc, hear)?),
        say: Numbers::of(Vec::from_slice(alloc, say)?),
        disk: Numbers::of(Vec::new(alloc)),
        stop: None,
    };
    let site = MemSite::new(alloc, script, Vec::new(alloc), faults, AMPLE)?;
    Ok(PieceSite { site, piece })
}

/// The status of a run, and what was said.
fn outcome<R: Threads + Sync>(
    rt: &R,
    alloc: Global,
    mut site: PieceSite,
) -> Result<(u8, Vec<u8>), Memory> {
    let arguments = arguments(alloc)?;
    let status = run(rt, alloc, &arguments, &mut site);
    Ok((status, Vec::from_slice(alloc, site.site.said())?))
}

/// A script that comes in pieces of so many bytes, the numbers of the hearing and of the saying that fail, where 0 is none, the
/// status of the run, and what is said.
struct Row {
    script: &'static [u8],
    piece: usize,
    hear: u64,
    say: u64,
    status: u8,
    said: &'static str,
}

const BAD: &str = "E10: statement not understood\n";

const BAD_TWICE: &str = "E10: statement not understood\nE10: statement not understood\n";

/// Two statements, each of which is refused, in pieces of which the first has one of them whole.
const TWO: Row = Row {
    script: b"SELEC;\nSELEC;\n",
    piece: 7,
    hear: 0,
    say: 0,
    status: 0,
    said: BAD_TWICE,
};

/// One statement that is executed.
const TOKENS: Row = Row {
    script: b"EXEC CTX_DOC.POLICY_TOKENS('some text');\n",
    piece: 4096,
    said: "some|0|4\ntext|5|4\n",
    ..TWO
};

/// A script in large pieces to which nothing is said.
const SILENT: Row = Row {
    script: b"",
    piece: 4096,
    said: "",
    ..TWO
};

/// A script in large pieces that is refused.
const REFUSED: Row = Row {
    said: BAD,
    ..SILENT
};

const ROWS: &[Row] = &[
    // whatever pieces it comes in
    TOKENS,
    Row { piece: 1, ..TOKENS },
    Row { piece: 7, ..TOKENS },
    // statements and rests
    SILENT,
    Row {
        script: b"SELEC;\n",
        ..REFUSED
    },
    Row {
        script: b"SELEC;\n",
        piece: 1,
        ..REFUSED
    },
    Row {
        script: b"-- note;\n",
        ..SILENT
    },
    Row {
        script: b"DROP TABLE docs",
        ..REFUSED
    },
    Row {
        script: b"-- \xc3\xa9;\n",
        piece: 1,
        ..SILENT
    },
    Row {
        script: b"\xc3\xa9;\n",
        ..REFUSED
    },
    Row {
        script: b"\xe3\x80\x80-- rest",
        ..SILENT
    },
    Row {
        script: b"SELEC;  \t \n-- rest",
        piece: 7,
        ..REFUSED
    },
    Row {
        script: b"SELEC;",
        ..REFUSED
    },
    // bytes that are no text are refused, in a comment too, and the script goes on; behind the last statement likewise
    Row {
        script: b"-- \xe9;\nCREATE TABLE t (id NUMBER PRIMARY KEY);\n",
        said: "E10: statement not understood\nTable created.\n",
        ..REFUSED
    },
    Row {
        script: b"-- \xc3",
        ..REFUSED
    },
    // faults end the run
    Row {
        hear: 1,
        status: 3,
        said: "",
        ..TWO
    },
    Row {
        say: 1,
        status: 4,
        said: "",
        ..TWO
    },
    Row {
        say: 2,
        status: 4,
        said: "E10: st",
        ..TWO
    },
    Row {
        hear: 2,
        status: 3,
        said: BAD,
        ..TWO
    },
    Row {
        hear: 3,
        status: 3,
        ..TWO
    },
];

/// What comes of a row.
fn row_outcome<R: Threads + Sync>(
    rt: &R,
    alloc: Global,
    row: &Row,
) -> Result<(u8, Vec<u8>), Memory> {
    let site = site_of(alloc, row.script, row.piece, &[row.hear], &[row.say])?;
    outcome(rt, alloc, site)
}

/// Whether that is what the row says.
fn is_outcome<R: Threads + Sync>(rt: &R, alloc: Global, row: &Row) -> Result<bool, Memory> {
    let (status, said) = row_outcome(rt, alloc, row)?;
    Ok(status == row.status && said.as_slice() == row.said.as_bytes())
}

#[test]
fn scripts_in_pieces_are_answered_and_faults_end_the_run(rt: HostRuntime) -> Result<(), Fail> {
    for (number, row) in ROWS.iter().enumerate() {
        assert!(rt; is_outcome(&rt, rt.alloc(), row)?, "{number}");
    }
    Ok(())
}

/// A script that is served over an empty keeper, how many bytes it may have, how much the content may weigh, how many bytes may be
/// said, the status, and what is said.
type Served = (&'static str, u64, u64, usize, u8, &'static str);

const SERVED: &[Served] = &[
    ("SELEC;\nSELEC;\n", 10, 4096, 100, 8, BAD),
    ("SELEC;\nSELEC;\n", 13, 4096, 100, 8, BAD),
    ("SELEC;\nSELEC;\n", 6, 4096, 100, 8, ""),
    ("SELEC;\nSELEC;\n", 14, 4096, 40, 4, BAD),
    ("SELEC;\n", 7, 4096, 30, 0, BAD),
    ("", 0, 128, 0, 0, ""),
    ("", 10, 128, 100, 0, ""),
    // a store that is full after two tables
    (
        "CREATE TABLE a (id NUMBER PRIMARY KEY);
CREATE TABLE b (id NUMBER PRIMARY KEY);
CREATE TABLE c (id NUMBER PRIMARY KEY);
CREATE TABLE a (id NUMBER PRIMARY KEY);
",
        1000,
        128,
        200,
        0,
        "Table created.\nTable created.\nE80: store full\nE12: a exists already\n",
    ),
];

/// Whether serving the script of a row ends with its status, and says what it has.
fn is_served<R: Threads + Sync>(rt: &R, alloc: Global, row: &Served) -> Result<bool, Memory> {
    let (script, most, limit, said_room, status, said) = *row;
    let script = Vec::from_slice(alloc, script.as_bytes())?;
    let mut keeper = MemKeeper::new(alloc, script, limit, said_room)?;
    let ended = serve(rt, alloc, 1, most, &mut keeper);
    Ok(ended == status && keeper.said() == said.as_bytes())
}

#[test]
fn keepers_in_memory_are_served(rt: HostRuntime) -> Result<(), Fail> {
    for (number, row) in SERVED.iter().enumerate() {
        assert!(rt; is_served(&rt, rt.alloc(), row)?, "{number}");
    }
    Ok(())
}

/// What is said to a script over a site that has no list of faults.
fn said_quietly<R: Threads + Sync>(rt: &R, alloc: Global, script: &str) -> Result<Vec<u8>, Memory> {
    let arguments = arguments(alloc)?;
    let script = Vec::from_slice(alloc, script.as_bytes())?;
    let mut site = QuietSite::new(alloc, script, Vec::new(alloc), AMPLE)?;
    let _ = run(rt, alloc, &arguments, &mut site);
    Ok(Vec::from_slice(alloc, site.said())?)
}

const INDEXED: &str = "CREATE TABLE docs (id NUMBER PRIMARY KEY, body CLOB);
INSERT INTO docs VALUES (1,'quick fox quick');
CREATE INDEX di ON docs(body) INDEXTYPE IS CONTEXT;
SELECT id, SCORE(1) FROM docs WHERE CONTAINS(body,'quick',1) > 0;
";

#[test]
fn an_index_over_a_quiet_site(rt: HostRuntime) -> Result<(), Fail> {
    let said = said_quietly(&rt, rt.alloc(), INDEXED)?;
    assert!(rt;
        said.as_slice() == b"Table created.\n1 row created.\nIndex created.\n1|2\n".as_slice()
    );
    Ok(())
}
