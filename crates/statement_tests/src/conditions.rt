//! Conditions on values.

use ct_base::{Memory, Name, Text, Value};
use db_cond::holds;
use st_parse::{Compare, Cond, Operand, Whole};
use std::alloc::Global;
use std::test::Fail;

/// The condition that a column compares so with a text.
fn text_cond(alloc: Global, op: Compare, text: &str) -> Result<Cond, Memory> {
    let column = Name::read(alloc, "title").map_err(|_| Memory)?;
    let value = Operand::Text(Text::of(alloc, text)?);
    Ok(Cond::Compare { column, op, value })
}

/// Whether texts and a number come after `zebra`.
fn come_after_zebra(alloc: Global) -> Result<[bool; 3], Memory> {
    let cond = text_cond(alloc, Compare::Greater, "zebra")?;
    let past_ascii = Value::Text(Text::of(alloc, "élan")?);
    let shorter = Value::Text(Text::of(alloc, "zeb")?);
    Ok([
        holds(&cond, &past_ascii),
        holds(&cond, &shorter),
        holds(&cond, &Value::Number(7)),
    ])
}

#[test]
fn a_letter_past_ascii_comes_after_z(rt: HostRuntime) -> Result<(), Fail> {
    assert!(rt; come_after_zebra(rt.alloc())? == [true, false, false]);
    Ok(())
}

/// Whether numbers are below 0.
fn are_below_zero(alloc: Global, numbers: [i64; 3]) -> Result<[bool; 3], Memory> {
    let column = Name::read(alloc, "price").map_err(|_| Memory)?;
    let cond = Cond::Between {
        column,
        low: Operand::Number(Whole::Fits(i64::MIN)),
        high: Operand::Number(Whole::Fits(-1)),
    };
    let [a, b, c] = numbers;
    Ok([
        holds(&cond, &Value::Number(a)),
        holds(&cond, &Value::Number(b)),
        holds(&cond, &Value::Number(c)),
    ])
}

#[test]
fn both_ends_of_a_between_hold(rt: HostRuntime) -> Result<(), Fail> {
    assert!(rt; are_below_zero(rt.alloc(), [i64::MIN, -1, 0])? == [true, true, false]);
    Ok(())
}
