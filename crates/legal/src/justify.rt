// Whether the edge that a command adds is justified.
ghost use Rattle.std.specs.Prelude.{◌≡◌, true, ◌≤◌};
ghost use Rattle.rt0.specs.Lists.{any};
ghost use Rattle.graph.specs.laws.Graph.{nodes_of, edges_of};
ghost use Rattle.graph.specs.Graph.{node_in};
ghost use Rattle.states.specs.laws.Brings.{NodesFormed};
ghost use Rattle.justification.specs.Justified.{monitors};
ghost use Rattle.justification.specs.laws.Justified.{Says};
ghost use Rattle.message.specs.declared.Command.TheVariants as C;
ghost use Rattle.negotiation.specs.laws.State.{state_of};
ghost use Rattle.negotiation.specs.State.{within};
ghost use Rattle.legal.specs.Number.{justified_in};
ghost use Rattle.legal.specs.laws.Judged.{is_implication, is_linking, Proves, SaysFor};
ghost use Rattle.numbers.specs.Sizes.{MOST-NODES, MOST-EDGES};

use expression::Expression;
use graph::{Edge, Edges, IMPLICATION, LINKING_IMPLICATION, Node, Nodes};
use justification::is_monitored_for;
use message::Command;
use negotiation::Negotiation;
use propagation::satisfied;
use states::{links, needs};
use word::wide;

// Which nodes are satisfied.
pub fn satisfied_nodes(nodes: &Nodes, edges: &Edges) -> [u8; 128]
    requires { (nodes.now.count ≤ MOST-NODES) × (edges.now.count ≤ MOST-EDGES) × NodesFormed (nodes_of nodes.now) }
    ensures { Says (nodes_of nodes.now) (edges_of edges.now) result }
{
    let need = needs(nodes);
    let x = links(nodes, edges);
    satisfied(nodes.count, &x, &need)
}

// Node i; a blank one where there is none.
pub fn node_in(nodes: &Nodes, i: u8) -> Node
    requires { nodes.now.count ≤ MOST-NODES }
    ensures { result ≡ node_in (nodes_of nodes.now) i }
{
    if nodes.count <= wide(i) {
        return Node {
            expression: Expression::Goal(0),
            subject: 0,
            verifier: 0,
            state: 0,
        };
    }
    nodes.node(i as usize)
}

// Whether a linking implication edge into node p is justified for B.
fn is_linked_for(n: &Negotiation, sat: &[u8; 128], p: u8, b: u16) -> bool
    requires { (n.now.nodes.count ≤ MOST-NODES) × (n.now.edges.count ≤ MOST-EDGES)
        × Says (nodes_of n.now.nodes) (edges_of n.now.edges) sat.now }
    ensures { result
        ≡ any (monitors (nodes_of n.now.nodes) (edges_of n.now.edges) (node_in (nodes_of n.now.nodes) p).expression b p)
        (edges_of n.now.edges) }
{
    let parent = node_in(&n.nodes, p);
    is_monitored_for(
        &n.nodes,
        n.edges.count,
        &n.edges,
        sat,
        parent.expression,
        b,
        p,
    )
}

fn is_join_linked(n: &Negotiation, sat: &[u8; 128], e: Edge) -> bool
    requires { (n.now.nodes.count ≤ MOST-NODES) × (n.now.edges.count ≤ MOST-EDGES) × (is_linking (C.Join e) ≡ true)
        × Says (nodes_of n.now.nodes) (edges_of n.now.edges) sat.now }
    ensures { result ≡ justified_in (state_of n.now) (C.Join e) }
{
    let child = node_in(&n.nodes, e.child);
    is_linked_for(n, sat, e.parent, child.subject)
}

// Whether a command adds an implication edge: it asks what the credentials shown prove.
pub fn is_implication(c: Command) -> bool
    ensures { result ≡ is_implication c }
{
    match c {
        Command::Bring(b) => b.kind == IMPLICATION,
        Command::Join(e) => e.kind == IMPLICATION,
        _ => false,
    }
}

// Whether a command adds a linking implication edge: it asks which nodes are satisfied.
pub fn is_linking(c: Command) -> bool
    ensures { result ≡ is_linking c }
{
    match c {
        Command::Bring(b) => b.kind == LINKING_IMPLICATION,
        Command::Join(e) => e.kind == LINKING_IMPLICATION,
        _ => false,
    }
}

// Whether the linking implication edge of a command is justified.
fn is_linked(n: &Negotiation, sat: &[u8; 128], c: Command) -> bool
    requires { (n.now.nodes.count ≤ MOST-NODES) × (n.now.edges.count ≤ MOST-EDGES) × (is_linking c ≡ true)
        × Says (nodes_of n.now.nodes) (edges_of n.now.edges) sat.now }
    ensures { result ≡ justified_in (state_of n.now) c }
{
    match c {
        Command::Show(_) => true,
        Command::Open(_) => true,
        Command::Bring(b) => is_linked_for(n, sat, b.parent, b.subject),
        Command::Join(e) => is_join_linked(n, sat, e),
        Command::Mark(_) => true,
        Command::End => true,
    }
}

// Whether the edge of a command is justified. Given are whether the credentials shown prove it, if it is an implication, and the satisfied nodes, if
// it is a linking implication.
pub fn is_justified(n: &Negotiation, proved: bool, sat: &[u8; 128], c: Command) -> bool
    requires { (within (state_of n.now) ≡ true) × Proves (state_of n.now) c proved
        × SaysFor c (nodes_of n.now.nodes) (edges_of n.now.edges) sat.now }
    ensures { result ≡ justified_in (state_of n.now) c }
{
    if is_linking(c) {
        return is_linked(n, sat, c);
    }
    !is_implication(c) | proved
}
