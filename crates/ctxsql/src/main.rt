//! The program: runs the script on standard input over the store that its arguments name, and says the replies on standard output; or says
//! a script that is generated.
#![tactic(auto)]

mod program;

use ct_site::RealSite;
use program::{Ended, arguments, file, prepare, stand_ins, work};

fn main(rt: HostRuntime) -> Ended {
    let _stand_ins = stand_ins(&rt);
    let arguments = arguments(&rt);
    let prepared = prepare(rt.alloc(), &arguments);
    let mut site = RealSite::new(&rt, file(&prepared));
    work(&rt, &prepared, &mut site)
}
