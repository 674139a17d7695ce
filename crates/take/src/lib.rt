// Take a message.
#![tactic(auto)]

pub use call::take;
pub use commands::take_commands;

mod call;
mod commands;
mod results;

// What is kept beside the negotiation while commands arrive: whether an open, an edge or a mark was among them; whether what is known is stale, since
// it does not count all credentials shown; and the column of the satisfied nodes, unless it is unsettled.
#[derive(Clone, Copy)]
pub struct Progress {
    moved: bool,
    stale: bool,
    sat: [u8; 128],
    unsettled: bool,
}
