// Which nodes of a graph are satisfied and which have failed, as least solutions.
//
// Node i has the slots i * 4 to i * 4 + 3. It is satisfied once its first need[i] slots are filled, a slot being filled by an edge from a
// satisfied node; with need 5 never.
// With way 1 it fails where no edge brings it a child that has not failed, with way 2 where an edge brings it a failed child.
#![tactic(auto)]

ghost use Rattle.std.specs.Prelude.{◌≡◌, ◌&&◌, ltb};
ghost use Rattle.propagation.specs.laws.Flags.{flag};
ghost use Rattle.propagation.specs.laws.Failed.{same_b};

pub use chains::Chains;
pub use failing::failed;
pub use satisfying::{Settling, Work, satisfied};

mod chains;
mod failing;
mod satisfying;

// Edges: edge j leads from node from[j] into slot slot[j]; with from[j] = 128 it leads from none.
#[derive(Clone, Copy)]
pub struct Links {
    pub count: usize,
    pub from: [u8; 256],
    pub slot: [u16; 256],
}

// Whether f is a node, and in the column or not as asked.
fn is_at(column: &[u8; 128], f: usize, on: bool) -> bool
    ensures { result ≡ (ltb f 128 && same_b on (flag column.now f)) }
{
    f < 128 && (column[f] == 1) == on
}
