//! The program: reads a CSV text on standard input, and writes the script that makes its table on standard output.
#![tactic(auto)]

mod arguments;
mod program;

use program::{Ended, work};

fn main(rt: HostRuntime) -> Ended {
    work(&rt)
}
