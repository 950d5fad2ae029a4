//! The heap of the store file: the map that its pages hold, loaded from a disk and changed by whole batches.
#![tactic(auto)]

mod applying;
mod batches;
mod directing;
mod directs;
mod heaps;
mod loading;
mod owner_counting;

pub use heaps::Heap;
pub use loading::{LoadedStore, load_store};
