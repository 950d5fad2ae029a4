//! The script of a number.

ghost use Rattle.std.specs.Prelude.{◌≡◌, ◌++◌, ◌≤◌, codes, map, IfOk, OnOk};
ghost use Rattle.std.specs.List.{range_with_len};
ghost use Rattle.gen_script.specs.Statements.{body_of, insert_of, queries, query_of, setup, values_of, word};
ghost use Rattle.gen_script.specs.Scripts.{ended, all_ended, script as script_of};

use crate::puts::{push_number, push_text};
use ct_base::Memory;
use std::alloc::Global;

/// The word of a number: the eight words in turn.
fn word(number: u64) -> &'static [u8]
    ensures { result.now ≡ word number }
{
    let place = number % 8;
    if place == 0 {
        b"amber"
    } else if place == 1 {
        b"birch"
    } else if place == 2 {
        b"cedar"
    } else if place == 3 {
        b"delta"
    } else if place == 4 {
        b"ember"
    } else if place == 5 {
        b"frost"
    } else if place == 6 {
        b"grove"
    } else {
        b"heron"
    }
}

/// Puts a statement with its end.
fn push_statement(out: &mut Vec<u8>, statement: &[u8]) -> Result<(), Memory>
    ensures { OnOk result (out.new.items ≡ out.old.items ++ ended statement.now) }
{
    push_text(out, statement)?;
    push_text(out, b";\n")
}

/// Puts the statements that make the table and its index.
fn push_setup(out: &mut Vec<u8>) -> Result<(), Memory>
    ensures { OnOk result (out.new.items ≡ out.old.items ++ all_ended setup) }
{
    push_statement(
        out,
        b"EXEC CTX_DDL.CREATE_SECTION_GROUP('gg','BASIC_SECTION_GROUP')",
    )?;
    push_statement(out, b"EXEC CTX_DDL.ADD_ZONE_SECTION('gg','t','T')")?;
    push_statement(
        out,
        b"CREATE TABLE gen (id NUMBER PRIMARY KEY, body CLOB, price NUMBER)",
    )?;
    push_statement(
        out,
        b"CREATE INDEX gi ON gen(body) INDEXTYPE IS CTXSYS.CONTEXT PARAMETERS ('SECTION GROUP gg')",
    )
}

/// Puts the text of the row with this key: a word in a zone, and three more in two sentences.
#[tactic(auto, unfolding(crate::specs::Statements::body_of))]
fn push_body(out: &mut Vec<u8>, key: u64) -> Result<(), Memory>
    requires { key ≤ 100000 }
    ensures { OnOk result (out.new.items ≡ out.old.items ++ body_of key) }
{
    push_text(out, b"<T>")?;
    push_text(out, word(key))?;
    push_text(out, b"</T> ")?;
    push_text(out, word(key / 8))?;
    push_text(out, b" ")?;
    push_text(out, word(key * key))?;
    push_text(out, b". ")?;
    push_text(out, word(3 * key + 1))?;
    push_text(out, b".")
}

/// Puts the values of the row with this key.
#[tactic(auto, unfolding(crate::specs::Statements::values_of))]
fn push_values(alloc: Global, out: &mut Vec<u8>, key: u64) -> Result<(), Memory>
    requires { key ≤ 100000 }
    ensures { OnOk result (out.new.items ≡ out.old.items ++ values_of key) }
{
    push_number(alloc, out, key)?;
    push_text(out, b",'")?;
    push_body(out, key)?;
    push_text(out, b"',")?;
    push_number(alloc, out, key % 10)
}

/// Puts the statement that inserts the row with this key, with its end.
fn push_insert(alloc: Global, out: &mut Vec<u8>, key: u64) -> Result<(), Memory>
    requires { key ≤ 100000 }
    ensures { OnOk result (out.new.items ≡ out.old.items ++ ended (insert_of key)) }
{
    push_text(out, b"INSERT INTO gen VALUES (")?;
    push_values(alloc, out, key)?;
    push_statement(out, b")")?;
    Ok(())
}

/// Puts the statements that insert this many rows, with the keys from 1 on.
fn push_inserts(alloc: Global, out: &mut Vec<u8>, rows: u64) -> Result<(), Memory>
    requires { rows ≤ 100000 }
    ensures { OnOk result (out.new.items ≡ out.old.items ++ all_ended (map insert_of (range_with_len 1 rows))) }
{
    for done in 0..rows {
        push_insert(alloc, out, done + 1)?;
    }
    Ok(())
}

/// Puts the search for the word of a number, with its end.
fn push_query(out: &mut Vec<u8>, number: u64) -> Result<(), Memory>
    ensures { OnOk result (out.new.items ≡ out.old.items ++ ended (query_of number)) }
{
    push_text(out, b"SELECT id, SCORE(1) FROM gen WHERE CONTAINS(body,'")?;
    push_text(out, word(number))?;
    push_statement(out, b"',1) > 0")
}

/// Puts the searches for each of the eight words.
fn push_queries(out: &mut Vec<u8>) -> Result<(), Memory>
    ensures { OnOk result (out.new.items ≡ out.old.items ++ all_ended queries) }
{
    for number in 0..8 {
        push_query(out, number)?;
    }
    Ok(())
}

/// The script of a number from 1 to 100,000, each statement on a line of its own, ended by `;`. It takes some 70 bytes for each row.
pub fn script(alloc: Global, n: u32) -> Result<Vec<u8>, Memory>
    requires some { 1 ≤ n }
    requires few { n ≤ 100000 }
    ensures { IfOk result (λ bytes. bytes.items ≡ script_of n) }
{
    let mut out = Vec::new(alloc);
    push_setup(&mut out)?;
    push_inserts(alloc, &mut out, u64::from(n))?;
    push_statement(&mut out, b"EXEC CTX_DDL.SYNC_INDEX('gi')")?;
    push_queries(&mut out)?;
    push_statement(&mut out, b"EXEC CTX_DDL.OPTIMIZE_INDEX('gi','FULL')")?;
    push_queries(&mut out)?;
    Ok(out)
}
