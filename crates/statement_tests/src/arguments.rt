//! Arguments and what they ask for.

use ct_base::Memory;
use db_arguments::{Asked, Store, file_of, read_arguments};
use std::alloc::Global;

const LARGEST: u64 = 68_719_476_736;

/// The arguments, and what they ask for: a FILE with a limit and a degree, or none with a number of rows, or nothing.
type Row = (
    &'static [&'static str],
    Option<(&'static str, u64, u32)>,
    Option<u32>,
);

const ROWS: &[Row] = &[
    // one FILE
    (&["a.db"], Some(("a.db", LARGEST, 1)), None),
    (&["-"], Some(("-", LARGEST, 1)), None),
    (&[""], Some(("", LARGEST, 1)), None),
    (&["--", "--"], Some(("--", LARGEST, 1)), None),
    // the limit
    (&["--limit", "4096", "a.db"], Some(("a.db", 4096, 1)), None),
    (&["ä", "--limit=68719476736"], Some(("ä", LARGEST, 1)), None),
    (
        &["--limit=00000000000000005000", "--", "--limit"],
        Some(("--limit", 5000, 1)),
        None,
    ),
    // the degree
    (
        &["--degree", "16", "a.db"],
        Some(("a.db", LARGEST, 16)),
        None,
    ),
    (
        &["a.db", "--degree=04", "--limit=4096"],
        Some(("a.db", 4096, 4)),
        None,
    ),
    (&["--", "--degree"], Some(("--degree", LARGEST, 1)), None),
    // rows
    (&["--generate", "8"], None, Some(8)),
    (
        &["--generate=00000000000000100000", "--"],
        None,
        Some(100_000),
    ),
    (
        &["--", "--generate"],
        Some(("--generate", LARGEST, 1)),
        None,
    ),
    // no FILE, or two
    (&[], None, None),
    (&["--"], None, None),
    (&["a", "b"], None, None),
    (&["a", "--", "b"], None, None),
    // other options, the beginning of one, or one twice
    (&["--help"], None, None),
    (&["-h", "a"], None, None),
    (&["-l", "a"], None, None),
    (&["-ä", "a"], None, None),
    (&["---", "a"], None, None),
    (&["--=5000", "a"], None, None),
    (&["--lim=5000", "a"], None, None),
    (&["--limits=5000", "a"], None, None),
    (&["--limit=5000", "a", "--limit", "5000"], None, None),
    (&["--generate=8", "--generate=8"], None, None),
    // values that are no limit; the last but one is 5000 and 2^64
    (&["a", "--limit"], None, None),
    (&["--limit", "--", "a"], None, None),
    (&["--limit", "-5000", "a"], None, None),
    (&["--limit", "--limit=5000", "a"], None, None),
    (&["--limit=", "a"], None, None),
    (&["--limit", "", "a"], None, None),
    (&["--limit=+5000", "a"], None, None),
    (&["--limit=5000 ", "a"], None, None),
    (&["--limit=4095", "a"], None, None),
    (&["--limit=68719476737", "a"], None, None),
    (&["--limit=18446744073709556616", "a"], None, None),
    (&["--limit=000000000000000005000", "a"], None, None),
    // values that are no degree, and a degree twice
    (&["a", "--degree"], None, None),
    (&["a", "--degree=0"], None, None),
    (&["a", "--degree=17"], None, None),
    (&["a", "--degree=four"], None, None),
    (&["--degree", "--limit=5000", "a"], None, None),
    (&["--degree=4", "a", "--degree=4"], None, None),
    (&["--degree=4"], None, None),
    // rows beside a FILE, a limit or a degree, none, and too many
    (&["--generate=8", "a"], None, None),
    (&["--generate=8", "--limit=5000"], None, None),
    (&["--degree=4", "--generate=8"], None, None),
    (&["--generate=0"], None, None),
    (&["--generate=100001"], None, None),
    (&["--generate"], None, None),
];

fn owned(alloc: Global, texts: &[&str]) -> Result<Vec<String>, Memory> {
    let mut all = Vec::new(alloc);
    for text in texts {
        all.push(String::from_str(alloc, text)?)?;
    }
    Ok(all)
}

/// What is asked for by a FILE with a limit and a degree, or by a number of rows.
fn asked<'a>(store: Option<(&'a str, u64, u32)>, rows: Option<u32>) -> Option<Asked<'a>> {
    match store {
        Some((file, limit, degree)) => Some(Asked::Over(Store {
            file,
            limit,
            degree,
        })),
        None => match rows {
            Some(rows) => Some(Asked::Rows(rows)),
            None => None,
        },
    }
}

/// Whether the arguments ask for this.
fn ask_for(
    alloc: Global,
    arguments: &[String],
    store: Option<(&str, u64, u32)>,
    rows: Option<u32>,
) -> Result<bool, Memory> {
    let read = read_arguments(alloc, arguments)? == asked(store, rows);
    let file = file_of(alloc, arguments)? == store.map(|s| s.0);
    Ok(read && file)
}

#[test]
fn arguments_and_what_they_ask_for(rt: HostRuntime) -> Result<(), Memory> {
    for (texts, store, rows) in ROWS {
        let arguments = owned(rt.alloc(), texts)?;
        assert!(rt;
            ask_for(rt.alloc(), &arguments, *store, *rows)?,
            "{texts:?}"
        );
    }
    Ok(())
}
