// The edges that a rule may add to a node: the first in order that is not done.
#![tactic(auto)]

pub use all::next_flagged;
pub use done::or_else;
use expression::Role;
use graph::Node;
pub use links::mark_if;
use negotiation::Negotiation;
pub use reach::no_reach;

mod all;
mod done;
mod frontiers;
mod goals;
mod links;
mod members;
mod parts;
mod reach;
mod subject;

// A node whose edges are sought, its number, and the negotiation in which it stands.
#[derive(Clone, Copy)]
pub struct Place<'a> {
    pub negotiation: &'a Negotiation,
    pub number: u8,
    pub node: Node,
}

// The credentials found for the linked role of these names, once one is known.
#[derive(Clone, Copy)]
pub struct LinkReach {
    pub known: bool,
    pub role: Role,
    pub name: u16,
    pub found: [u8; 128],
}
