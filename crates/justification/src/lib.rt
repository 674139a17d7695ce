// Which edges are justified.
#![tactic(auto)]

pub use implied::edges_implied;
pub use linked::links_justified;
pub use monitors::is_monitored_for;

mod implied;
mod linked;
mod monitors;
