// A move as it is sent. What moves are stands in the specs of moves.
#![tactic(auto)]

pub use prepared::prepare;
pub use send::outgoing;
pub use unshown::Unshown;

mod commands;
mod credentials;
mod pool;
mod prepared;
mod send;
mod unshown;
