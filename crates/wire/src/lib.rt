// Messages as bytes: `encode` gives a message's bytes, `decode` reads any bytes as a message or refuses them.
#![tactic(auto)]

mod kind;
mod read;
mod write;

pub use read::decode;
pub use write::encode;
