//! Structured queries of CATSEARCH.

use crate::query_texts::printing::put_place;
use cat_where::{Where, WhereFault, read_where};
use ct_base::{Memory, Name};
use st_parse::{Compare, Cond, Item, Operand, OrderItem, Whole};
use std::alloc::Global;

/// What the text gives: its conditions and its order, or its fault.
pub(crate) fn answer(alloc: Global, text: &str) -> Result<String, Memory> {
    let mut out = String::new(alloc);
    match read_where(alloc, text) {
        Ok(found) => put_where(alloc, &mut out, &found)?,
        Err(WhereFault::Syntax(place)) => put_place(alloc, &mut out, "E20", place)?,
        Err(WhereFault::BadNumber(place)) => put_place(alloc, &mut out, "E22", place)?,
        Err(WhereFault::Memory) => out.push_str("no memory")?,
    }
    Ok(out)
}

fn put_where(alloc: Global, out: &mut String, found: &Where) -> Result<(), Memory> {
    out.push_str("good")?;
    for cond in found.conds.as_slice() {
        put_cond(alloc, out, cond)?;
    }
    for order in found.orders.as_slice() {
        put_order(out, order)?;
    }
    Ok(())
}

fn put_column(out: &mut String, column: &Name, sign: &str) -> Result<(), Memory> {
    out.push(' ')?;
    out.push_str(column.as_str())?;
    out.push_str(sign)?;
    Ok(())
}

/// A condition: the column, its sign, and the values.
fn put_cond(alloc: Global, out: &mut String, cond: &Cond) -> Result<(), Memory> {
    match cond {
        Cond::Compare { column, op, value } => {
            put_column(out, column, sign_of(*op))?;
            put_value(alloc, out, value)?;
        }
        Cond::Between { column, low, high } => {
            put_column(out, column, "..")?;
            put_value(alloc, out, low)?;
            put_value(alloc, out, high)?;
        }
        Cond::OneOf { column, values } => {
            put_column(out, column, ":")?;
            put_values(alloc, out, values.as_slice())?;
        }
    }
    Ok(())
}

fn sign_of(op: Compare) -> &'static str {
    match op {
        Compare::Equal => "=",
        Compare::Less => "<",
        Compare::AtMost => "<=",
        Compare::Greater => ">",
        Compare::AtLeast => ">=",
    }
}

fn put_values(alloc: Global, out: &mut String, values: &[Operand]) -> Result<(), Memory> {
    for value in values {
        put_value(alloc, out, value)?;
    }
    Ok(())
}

/// A text in quotes, or a number.
fn put_value(alloc: Global, out: &mut String, value: &Operand) -> Result<(), Memory> {
    let shown = match value {
        Operand::Text(text) => {
            let text = text.as_str();
            format!(in alloc; "'{text}'")?
        }
        Operand::Number(Whole::Fits(number)) => format!(in alloc; "[{number}]")?,
        Operand::Number(Whole::Beyond) => format!(in alloc; "[beyond]")?,
    };
    out.push_str(shown.as_str())?;
    Ok(())
}

/// An item of the order: the column, and whether it falls.
fn put_order(out: &mut String, order: &OrderItem) -> Result<(), Memory> {
    let direction = if order.down { " falls" } else { " rises" };
    match &order.item {
        Item::Column(column) => put_column(out, column, direction)?,
        Item::Score(_) => out.push_str(" a score")?,
    }
    Ok(())
}

/// One row on each line; the head of `query_texts.rt` says how they are written. A query is `good`, then its conditions, as `a='x'`,
/// `a..[1][2]` and `a:[1]'x'`, and then its order.
pub(crate) static ROWS: &str = r#"
# conditions and an order
 → good
-- a note → good
a = 1 AND b IN ('x') ORDER BY c DESC → good a=[1] b:'x' c falls
order by A, b asc, C desc → good a rises b rises c falls
a < 1 and a <= 2 AND a > 3 AND a >= - 4 → good a<[1] a<=[2] a>[3] a>=[-4]
price BETWEEN 1 AND 2 AND k = 'it''s' → good price..[1][2] k='it's'
a IN (1, 'x', -9223372036854775808) → good a:[1]'x'[-9223372036854775808]
# no structured queries
a =  → E20 5
a → E20 2
a a % → E20 3
a = 1 % → E20 7
a = 1 AND → E20 10
a IN () → E20 7
a = 1 b = 2 → E20 7
a = 1 ORDER c → E20 13
ORDER BY score → E20 10
ORDER BY a a → E20 12
WHERE a = 1 → E20 1
a = 'x → E20 5
# numbers
a = 9223372036854775808 → E22 5
a = -9223372036854775809 → E22 6
a IN (1, 9223372036854775808 → E22 10
a 9223372036854775808 → E20 3
"#;
