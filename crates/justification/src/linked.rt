// Linking implication edges.
ghost use Rattle.std.specs.Prelude.{◌≡◌, false, [], ◌≤◌, ◌<◌, get_or};
ghost use Rattle.rt0.specs.laws.Find.{Missed};
ghost use Rattle.graph.specs.laws.Graph.{edges_from, nodes_of, edges_of};
ghost use Rattle.justification.specs.laws.Justified.{linking_kind, Says};
ghost use Rattle.justification.specs.Justified.{monitored, monitored_if};
ghost use Rattle.justification.specs.InTurn.{in_turn};
ghost use Rattle.justification.specs.laws.Inside.{Inside};
ghost use Rattle.states.specs.laws.Brings.{NodesFormed};

use crate::monitors::is_monitored_for;
use graph::{Edge, Edges, LINKING_IMPLICATION, Nodes};
use propagation::Settling;
use states::{links, needs};

// Whether a linking implication edge is justified behind the first m edges, which satisfy the nodes of sat.
fn is_monitored(nodes: &Nodes, m: usize, edges: &Edges, sat: &[u8; 128], e: Edge) -> bool
    requires { (nodes.now.count ≤ 128) × (m ≤ 256) × (e.parent < nodes.now.count) × (e.child < nodes.now.count)
        × Says (nodes_of nodes.now) (edges_of (edges_from m edges.now.kind edges.now.parent edges.now.child)) sat.now }
    ensures { result ≡ monitored (nodes_of nodes.now)
        (edges_of (edges_from m edges.now.kind edges.now.parent edges.now.child)) e }
{
    let p = nodes.node(e.parent as usize);
    let c = nodes.node(e.child as usize);
    is_monitored_for(nodes, m, edges, sat, p.expression, c.subject, e.parent)
}

// Whether an edge, if it is a linking implication edge, is justified behind the first m edges, likewise.
fn is_monitored_if(nodes: &Nodes, m: usize, edges: &Edges, sat: &[u8; 128], e: Edge) -> bool
    requires { (nodes.now.count ≤ 128) × (m ≤ 256) × (e.parent < nodes.now.count) × (e.child < nodes.now.count)
        × Says (nodes_of nodes.now) (edges_of (edges_from m edges.now.kind edges.now.parent edges.now.child)) sat.now }
    ensures { result ≡ monitored_if (nodes_of nodes.now)
        (edges_of (edges_from m edges.now.kind edges.now.parent edges.now.child)) e }
{
    if e.kind != LINKING_IMPLICATION {
        return true;
    }
    is_monitored(nodes, m, edges, sat, e)
}

// Whether any edge is a linking implication edge.
fn has_linking(edges: &Edges) -> bool
    requires { edges.now.count ≤ 256 }
    ensures { result ≡ false → Missed linking_kind (λ j. get_or edges.now.kind j 0) edges.now.count }
{
    edges.kind[..edges.count].contains(&LINKING_IMPLICATION)
}

// Whether every linking implication edge is justified by the edges before it; the satisfied nodes grow with the edges.
pub fn links_justified(nodes: &Nodes, edges: &Edges) -> bool
    requires { (nodes.now.count ≤ 128) × (edges.now.count ≤ 256) × NodesFormed (nodes_of nodes.now)
        × Inside nodes.now.count edges.now }
    ensures { result ≡ in_turn (monitored_if (nodes_of nodes.now)) [] (edges_of edges.now) }
{
    if !has_linking(edges) {
        return true;
    }
    let need = needs(nodes);
    let links = links(nodes, edges);
    let mut settling = Settling::new(nodes.count, &need);
    for j in 0..edges.count {
        if !is_monitored_if(nodes, j, edges, &settling.work.sat, edges.edge(j)) {
            return false;
        }
        settling.insert(&links, &need, j);
    }
    true
}
