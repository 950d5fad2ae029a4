//! Printed lines.

use ct_base::{Memory, Text, Value};
use db_cond::line;
use std::alloc::Global;
use std::test::Fail;

/// A line of a text and a number behind another line.
fn two_lines(alloc: Global) -> Result<Vec<u8>, Memory> {
    let text = Text::of(alloc, "a|b\\c\nd\r")?;
    let mut out = Vec::from_slice(alloc, b"x\n")?;
    line(alloc, &mut out, &[Value::Text(text), Value::Number(-7)])?;
    Ok(out)
}

#[test]
fn a_line_of_two_fields(rt: HostRuntime) -> Result<(), Fail> {
    let out = two_lines(rt.alloc())?;
    assert_eq!(rt; out.as_slice(), b"x\na\\|b\\\\c\\nd\\r|-7\n".as_slice());
    Ok(())
}
