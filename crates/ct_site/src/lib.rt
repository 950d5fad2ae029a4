//! The outside of the program: a disk, a script that is heard, and bytes that are said.
#![tactic(auto)]

mod counts;
mod fault_lists;
mod logs;
mod memory;
mod outside;
mod picks;
mod places;
mod quiet;
mod real;
mod room_sizes;

pub use fault_lists::Faults;
pub use memory::MemSite;
pub use outside::{Disk, Failed, Site};
pub use picks::Pick;
pub use quiet::QuietSite;
pub use real::RealSite;
pub use room_sizes::Rooms;
