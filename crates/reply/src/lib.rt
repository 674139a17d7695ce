// The reply.
#![tactic(auto)]

pub use call::reply;

mod call;
mod carry;
mod turns;

// How many bytes a reply has so far, and whether it stopped on a size.
#[derive(Clone, Copy)]
pub struct Written {
    pub at: usize,
    pub full: bool,
}
