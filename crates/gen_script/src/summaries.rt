//! The line that sums up the run of a script.

ghost use Rattle.std.specs.Prelude.{◌≡◌, ◌≤◌, IfOk};
ghost use Rattle.gen_script.specs.Summaries.{summary as summary_of};

use crate::puts::{push_number, push_text};
use ct_base::Memory;
use std::alloc::Global;

/// The line that sums up a run of the script of a number, by how many lines of hits its replies had. It ends with a newline.
pub fn summary(alloc: Global, n: u32, hits: u64) -> Result<Vec<u8>, Memory>
    requires { n ≤ 100000 }
    ensures { IfOk result (λ line. line.items ≡ summary_of n hits) }
{
    let mut line = Vec::new(alloc);
    push_text(&mut line, b"-- statements=")?;
    push_number(alloc, &mut line, u64::from(n) + 22)?;
    push_text(&mut line, b" rows=")?;
    push_number(alloc, &mut line, u64::from(n))?;
    push_text(&mut line, b" hits=")?;
    push_number(alloc, &mut line, hits)?;
    push_text(&mut line, b"\n")?;
    Ok(line)
}
