// The moves of a reply. What they are stands in specs/.
#![tactic(auto)]

use expression::{Expression, Role};
pub use initial::initial_state;
use message::Command;
pub use predicates::stops;
use rt0::Pool;
use tables::House;

mod initial;
mod predicates;

// Of which expressions a frontier consists.
#[derive(Clone, Copy)]
pub enum Predicate {
    Oppo,
    Simp,
    Sens,
}

// An edge by its kind and its child's verifier, expression and subject; direct: it goes out with the direct credential alone.
#[derive(Clone, Copy)]
pub struct Candidate {
    pub kind: u8,
    pub verifier: u8,
    pub expression: Expression,
    pub subject: u16,
    pub direct: bool,
}

// What the rules for a node come to: an edge, a mark of the node, or nothing to do for now.
#[derive(Clone, Copy)]
pub enum Choice {
    Edge(Candidate),
    Mark,
    Nothing,
}

// "A role is held if 0x13 has its direct credential; its access policy is its 0x15 record or none."
#[derive(Clone, Copy)]
pub enum Holding {
    Absent,
    Free,
    Guarded(Role),
}

// Nothing while the Ack target is unsatisfied, then what we hold.
#[derive(Clone, Copy)]
pub enum Known {
    Waiting,
    Seen(Holding),
}

// What a reply asks of our tables, found once: which credentials of 0x13 are no direct ones of sensitive roles, and at which bodies the
// frontiers stop, oppo over 0x12, simp and sens over 0x13; 1 for each.
#[derive(Clone, Copy)]
pub struct Preparation {
    pub house: House,
    pub visible: [u8; 128],
    pub oppo: [u8; 128],
    pub simp: [u8; 128],
    pub sens: [u8; 128],
}

// The node at which the next move is made, and what it is; nothing where no move is left.
#[derive(Clone, Copy)]
pub struct Found {
    pub node: u8,
    pub choice: Choice,
}

// A move as it is sent: first the credentials of the pool that are on, then the command.
#[derive(Clone, Copy)]
pub struct Outgoing {
    pub pool: Pool,
    pub on: [u8; 128],
    pub command: Command,
}
