// The home: it has all words, puts diffs in once each, and gives locks in turn. It answers any bytes.
#![tactic(auto)]

mod answer;
mod locks;
mod node;

pub use answer::{Refused, Sent};
pub use node::Home;
