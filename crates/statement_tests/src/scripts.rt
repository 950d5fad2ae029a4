//! Scripts that are cut.

use ct_base::Memory;
use st_cut::cut;
use std::alloc::Global;

/// The items with a `|` after each.
fn marked(alloc: Global, items: &Vec<Vec<u8>>) -> Result<Vec<u8>, Memory> {
    let mut all = Vec::new(alloc);
    for item in items {
        all.extend_from_slice(item.as_slice())?;
        all.push(b'|')?;
    }
    Ok(all)
}

/// Scripts, and their items.
const SCRIPTS: &[(&str, &str)] = &[
    ("", "|"),
    ("\n \n;\nx", "\n \n|x|"),
    ("a;b\nc;\nd", "a;b\nc|d|"),
    ("a;\t\r\nb; ;  \nc;x", "a|b; |c;x|"),
    ("a;\n\n", "a|\n|"),
    ("a;", "a||"),
    ("a;\r", "a||"),
    ("a;\x0c\nb", "a;\x0c\nb|"),
    ("-- it's;\n'x;\ny", "-- it's|'x|y|"),
    ("a", "a|"),
];

fn cut_text(alloc: Global, script: &str) -> Result<Vec<u8>, Memory> {
    let items = cut(alloc, script.as_bytes())?;
    marked(alloc, &items)
}

#[test]
fn statements_and_the_rest(rt: HostRuntime) -> Result<(), Memory> {
    for (script, want) in SCRIPTS {
        let found = cut_text(rt.alloc(), script)?;
        assert!(rt; found.as_slice() == want.as_bytes(), "{script:?}");
    }
    Ok(())
}
