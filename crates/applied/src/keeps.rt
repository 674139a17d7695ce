// Whether a command leaves the satisfied nodes as they are.
ghost use Rattle.std.specs.Prelude.{◌≡◌, true, List, ℕ, ◌≤◌};
ghost use Rattle.graph.specs.laws.Graph.{nodes_of, edges_of};
ghost use Rattle.propagation.specs.laws.Flags.{flag};
ghost use Rattle.message.specs.declared.Command.TheVariants as C;
ghost use Rattle.applied.specs.laws.SameStates.{is_parts, Inside};
ghost use Rattle.applied.specs.laws.KeepsStates.{brings_nothing, keeps_states};
ghost use Rattle.numbers.specs.Sizes.{MOST-NODES, MOST-EDGES};

use expression::{Expression, is_entity};
use graph::{Edge, Edges, IMPLICATION, INTERSECTION, LINKING_IMPLICATION, Nodes};
use message::{Command, NewEdge};
use word::wide;

const BOTH_PROCESSED: u8 = 3;

// Whether an expression is an intersection.
fn is_parts(x: Expression) -> bool
    ensures { result ≡ is_parts x }
{
    matches!(x, Expression::Intersection(_))
}

// Whether node i stands in a column of flags.
fn is_flagged(sat: &[u8; 128], i: u8) -> bool
    ensures { result ≡ flag sat.now i }
{
    if 128 <= wide(i) {
        return false;
    }
    sat[wide(i)] == 1
}

// Whether an edge brings its parent, a node in that state, nothing; child and parent say which of them are satisfied.
fn brings_nothing(kind: u8, state: u8, child: bool, parent: bool) -> bool
    ensures { result ≡ brings_nothing kind state child parent }
{
    !child
        | parent
        | ((kind != IMPLICATION)
            & (kind != LINKING_IMPLICATION)
            & ((kind != INTERSECTION) | (state != BOTH_PROCESSED)))
}

// A new child is satisfied only if it is an entity, whatever other nodes are.
fn bring_keeps(nodes: &Nodes, b: NewEdge) -> bool
    requires { nodes.now.count ≤ MOST-NODES }
    ensures { (sat : List ℕ) → result ≡ keeps_states (nodes_of nodes.now) sat (C.Bring b) }
{
    if nodes.count <= wide(b.parent) {
        return false;
    }
    !is_entity(b.expression)
}

fn join_keeps(nodes: &Nodes, sat: &[u8; 128], e: Edge) -> bool
    requires { nodes.now.count ≤ MOST-NODES }
    ensures { result ≡ keeps_states (nodes_of nodes.now) sat.now (C.Join e) }
{
    if nodes.count <= wide(e.parent) {
        return false;
    }
    let p = nodes.node(e.parent as usize);
    let child = is_flagged(sat, e.child);
    let parent = is_flagged(sat, e.parent);
    brings_nothing(e.kind, p.state, child, parent)
}

// A mark matters to an intersection only, whatever nodes are satisfied.
fn mark_keeps(nodes: &Nodes, i: u8) -> bool
    requires { nodes.now.count ≤ MOST-NODES }
    ensures { (sat : List ℕ) → result ≡ keeps_states (nodes_of nodes.now) sat (C.Mark i) }
{
    if nodes.count <= wide(i) {
        return false;
    }
    let p = nodes.node(i as usize);
    !is_parts(p.expression)
}

// Whether a command leaves the satisfied nodes as they are; sat is the column of them.
pub fn keeps_states(nodes: &Nodes, sat: &[u8; 128], c: Command) -> bool
    requires { nodes.now.count ≤ MOST-NODES }
    ensures { result ≡ keeps_states (nodes_of nodes.now) sat.now c }
{
    match c {
        Command::Show(_) => true,
        Command::Open(_) => true,
        Command::Bring(b) => bring_keeps(nodes, b),
        Command::Join(e) => join_keeps(nodes, sat, e),
        Command::Mark(i) => mark_keeps(nodes, i),
        Command::End => true,
    }
}

// Whether each edge leads into a node.
pub fn is_inside(nodes: &Nodes, edges: &Edges) -> bool
    requires { edges.now.count ≤ MOST-EDGES }
    ensures { (result ≡ true) → Inside (nodes_of nodes.now) (edges_of edges.now) }
{
    for j in 0..edges.count {
        if nodes.count <= wide(edges.parent[j]) {
            return false;
        }
    }
    true
}
