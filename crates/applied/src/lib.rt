// What a legal command does, and what a message leaves.
#![tactic(auto)]

ghost use Rattle.std.specs.Prelude.{◌≡◌, true, ℕ, ◌≤◌, ◌<◌};
ghost use Rattle.message.specs.declared.Command.TheVariants as C;
ghost use Rattle.negotiation.specs.laws.State.{state_of};
ghost use Rattle.negotiation.specs.State.{within};
ghost use Rattle.applied.specs.Step.{stepped, is_move, has_room};
ghost use Rattle.numbers.specs.Sizes.{MOST-NODES, MOST-EDGES};

pub use after::after_message;
use graph::Edge;
pub use keeps::{is_inside, keeps_states};
use message::{Command, NewEdge, Opening};
use negotiation::Negotiation;
pub use sides::child_of;
use sides::primary_of;

mod after;
mod keeps;
mod sides;

// The primary is added, whichever side sends it.
fn open(n: &mut Negotiation, o: Opening)
    requires { n.old.nodes.count < MOST-NODES }
    ensures { (side : ℕ) → state_of n.new ≡ stepped (state_of n.old) side (C.Open o) }
{
    *n = n.add_node(primary_of(n.header, o));
}

// A child is added, then the edge to it, whichever side sends them.
fn bring(n: &mut Negotiation, b: NewEdge)
    requires { (b.parent < n.old.nodes.count) × (n.old.nodes.count < MOST-NODES) × (n.old.edges.count < MOST-EDGES) }
    ensures { (side : ℕ) → state_of n.new ≡ stepped (state_of n.old) side (C.Bring b) }
{
    let p = n.nodes.node(b.parent as usize);
    let e = Edge {
        kind: b.kind,
        parent: b.parent,
        child: n.nodes.count as u8,
    };
    *n = n.add_node(child_of(p, b)).add_edge(e);
}

// A node is marked as processed by a side.
fn mark(n: &mut Negotiation, side: u8, i: u8)
    requires { (i < n.old.nodes.count) × (n.old.nodes.count ≤ MOST-NODES) }
    ensures { state_of n.new ≡ stepped (state_of n.old) side (C.Mark i) }
{
    let x = n.nodes.node(i as usize);
    *n = n.mark(i as usize, x.marked_state(side));
}

// What a command of the sender does.
pub fn step(n: &mut Negotiation, sender: u8, c: Command)
    requires { (within (state_of n.old) ≡ true) × (has_room (state_of n.old) c ≡ true) }
    ensures { state_of n.new ≡ stepped (state_of n.old) sender c }
{
    match c {
        Command::Show(d) => *n = n.show(d),
        Command::Open(o) => open(n, o),
        Command::Bring(b) => bring(n, b),
        Command::Join(e) => *n = n.add_edge(e),
        Command::Mark(i) => mark(n, sender, i),
        Command::End => {}
    }
}

// Whether a command is an open, an edge or a mark.
pub fn is_move(c: Command) -> bool
    ensures { result ≡ is_move c }
{
    !matches!(c, Command::Show(_) | Command::End)
}
