// Propagated states: the columns of propagation, filled from a graph, and the state of a node.
#![tactic(auto)]

ghost use Rattle.std.specs.Prelude.{◌≡◌, ◌≤◌, ◌<◌};
ghost use Rattle.rt0.specs.Lists.{any};
ghost use Rattle.graph.specs.declared.Nodes.{Nodes};
ghost use Rattle.graph.specs.laws.Graph.{nodes_from, edge_at, nodes_of, edges_of};
ghost use Rattle.graph.specs.Propagated.{complete_b, propagated_state};
ghost use Rattle.states.specs.laws.Brings.{NodesFormed, EdgesFormed};
ghost use Rattle.states.specs.laws.Complete.{is_unknown, complete_by, StateColumns};
ghost use Rattle.numbers.specs.Sizes.{MOST-NODES, MOST-EDGES};

pub use fill::{links, needs, ways};
use graph::{Edges, Nodes, SOLUTION};
use propagation::{failed, satisfied};

mod fill;

// By node number, 1 for each that is satisfied, and for each that has failed.
#[derive(Clone, Copy)]
pub struct NodeStates {
    pub satisfied: [u8; 128],
    pub failed: [u8; 128],
}

// Whether edge j brings goal i a solution, of n nodes, that is neither satisfied nor failed.
#[tactic(auto, unfolding(crate::specs::laws::Complete::is_unknown))]
fn is_open(n: usize, edges: &Edges, states: &NodeStates, i: usize, j: usize) -> bool
    requires { (n ≤ 128) × (j < 256) }
    ensures { result ≡ is_unknown n states.now.satisfied states.now.failed i (edge_at edges.now j) }
{
    let p = edges.parent[j] as usize;
    let c = edges.child[j] as usize;
    (edges.kind[j] == SOLUTION) & (p == i)
        && c < n
        && (states.satisfied[c] != 1) & (states.failed[c] != 1)
}

// Whether any edge does.
fn has_open(n: usize, edges: &Edges, states: &NodeStates, i: usize) -> bool
    requires { (n ≤ 128) × (edges.now.count ≤ 256) }
    ensures { result ≡ any (is_unknown n states.now.satisfied states.now.failed i) (edges_of edges.now) }
{
    for j in 0..edges.count {
        if is_open(n, edges, states, i, j) {
            return true;
        }
    }
    false
}

// Whether a node is a complete goal, by its kind and state, and by whether a solution is open.
#[tactic(auto, unfolding(crate::specs::laws::Complete::complete_by))]
fn complete_by(kind: u8, state: u8, any_open: bool) -> bool
    ensures { result ≡ complete_by kind state any_open }
{
    (kind != 1) & (kind != 2) & (kind != 3) & (kind != 4) & (state == 3) & !any_open
}

// Whether node i is a complete goal, whatever the nodes' other columns with which the states are those of the graph.
pub fn is_complete(nodes: &Nodes, edges: &Edges, states: &NodeStates, i: usize) -> bool
    requires { (i < nodes.now.count) × (nodes.now.count ≤ 128) × (edges.now.count ≤ 256) }
    ensures { (o : Nodes) → StateColumns (nodes_of (nodes_from nodes.now.count nodes.now.kind o.number o.subject o.verifier nodes.now.state))
        (edges_of edges.now) states.now.satisfied states.now.failed
        → result ≡ complete_b (nodes_of (nodes_from nodes.now.count nodes.now.kind o.number o.subject o.verifier nodes.now.state))
        (edges_of edges.now) i }
{
    let any_open = has_open(nodes.count, edges, states, i);
    complete_by(nodes.kind[i * 2], nodes.state[i], any_open)
}

// Which nodes are satisfied, and which have failed.
pub fn node_states(nodes: &Nodes, edges: &Edges) -> NodeStates
    requires { (nodes.now.count ≤ MOST-NODES) × (edges.now.count ≤ MOST-EDGES) × NodesFormed (nodes_of nodes.now)
        × EdgesFormed (nodes_of nodes.now) (edges_of edges.now) }
    ensures { StateColumns (nodes_of nodes.now) (edges_of edges.now) result.satisfied result.failed }
{
    let links = links(nodes, edges);
    let need = needs(nodes);
    let way = ways(nodes);
    NodeStates {
        satisfied: satisfied(nodes.count, &links, &need),
        failed: failed(nodes.count, &links, &way),
    }
}

// The propagated state of node i: 0 unknown or incomplete, 1 satisfied or complete, 2 failed.
pub fn state_of(nodes: &Nodes, edges: &Edges, i: usize) -> u8
    requires { (i < nodes.now.count) × (nodes.now.count ≤ MOST-NODES) × (edges.now.count ≤ MOST-EDGES) × NodesFormed (nodes_of nodes.now)
        × EdgesFormed (nodes_of nodes.now) (edges_of edges.now) }
    ensures { result ≡ propagated_state (nodes_of nodes.now) (edges_of edges.now) i }
{
    let links = links(nodes, edges);
    let need = needs(nodes);
    let satisfied = satisfied(nodes.count, &links, &need);
    if satisfied[i] == 1 {
        return 1;
    }
    let way = ways(nodes);
    let failed = failed(nodes.count, &links, &way);
    let states = NodeStates { satisfied, failed };
    if is_complete(nodes, edges, &states, i) {
        return 1;
    }
    if failed[i] == 1 {
        return 2;
    }
    0
}
