// The pages that a station has: 256 slots of 64 words for copies and as many for twins, a table that has each page's slot, and the number of words whose copy is not their twin.
#![tactic(auto)]

mod cache;
mod slots;

pub use cache::PageCache;
