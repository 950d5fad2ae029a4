//! Query texts of CATSEARCH.

use crate::query_texts::printing::{put_place, put_query};
use cat_query::{CatFault, read};
use ct_base::Memory;
use std::alloc::Global;

/// What the text gives: its tree, or its fault.
pub(crate) fn answer(alloc: Global, text: &str) -> Result<String, Memory> {
    let mut out = String::new(alloc);
    match read(alloc, text) {
        Ok(query) => put_query(alloc, &mut out, &query)?,
        Err(CatFault::Syntax(place)) => put_place(alloc, &mut out, "E20", place)?,
        Err(CatFault::TooLarge) => out.push_str("E26")?,
        Err(CatFault::Memory) => out.push_str("no memory")?,
    }
    Ok(out)
}

/// One row on each line; the head of `query_texts.rt` says how they are written.
pub(crate) static ROWS: &str = r#"
# joints, and how they bind
red - blue | hat → (OR (NOT (P [1"red"]) (P [7"blue"])) (P [14"hat"]))
red (car|hat) → (AND (P [1"red"]) (OR (P [6"car"]) (P [10"hat"])))
a - b c → (AND (NOT (P [1"a"]) (P [5"b"])) (P [7"c"]))
a | b | c → (OR (OR (P [1"a"]) (P [5"b"])) (P [9"c"]))
((a)) → (P [3"a"])
# words, and what stands for itself
red-blue → (P [1"red-blue"])
a -b → (AND (P [1"a"]) (P [3"-b"]))
(-) → (P [2"-"])
h*t → (P [1"h%t"])
a_% AND → (AND (P [1"a\_\%"]) (P [5"AND"]))
"a *|b"c → (AND (P [1"a *|b"]) (P [8"c"]))
"" → (P [1""])
ä⟨U+3000⟩b → (AND (P [1"ä"]) (P [6"b"]))
# no queries
 → E20 1
*ed → E20 1
- a → E20 1
a - → E20 4
a - - b → E20 5
a | → E20 4
a || b → E20 4
"a → E20 1
(a → E20 3
a) b → E20 2
a () → E20 4
⟨32 (⟩a → E20 34
⟨33 (⟩a → E26
⟨1025 a ⟩ → E26
⟨4001 a⟩ → E26
"#;
