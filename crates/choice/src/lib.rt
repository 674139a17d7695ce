// Which move comes next. What it is stands in moves/specs.
#![tactic(auto)]

use candidates::LinkReach;
use moves::Found;
pub use next::{is_nothing, next_choice};
pub use waiting::resting;

mod known;
mod next;
mod processing;
mod sensitive;
mod waiting;

// A move, and what was found for the linked target visited last.
#[derive(Clone, Copy)]
pub struct Turn {
    pub found: Found,
    pub reach: LinkReach,
}
