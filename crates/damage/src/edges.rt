// The edges, but for their justification.
ghost use Rattle.std.specs.Prelude.{◌≡◌, ℕ, ◌≤◌, ◌<◌};
ghost use Rattle.graph.specs.laws.Graph.{nodes_from, edges_from, nodes_of, edges_of, edge_at};
ghost use Rattle.damage.specs.Edges.{brought, placed as placed_of, formed as formed_of, edge_fits, all_brought};

use graph::{Edge, Edges, Nodes, form};
use negotiation::Header;

// An edge behind which b of n nodes are brought.
fn placed(n: usize, b: usize, e: Edge) -> bool
    ensures { result ≡ placed_of n b e }
{
    ((e.parent as usize) < b)
        & ((e.child as usize) <= b)
        & ((e.child as usize) < n)
        & (e.parent != e.child)
}

// An edge between nodes has the form of its kind, however many nodes there are.
fn formed(h: &Header, nodes: &Nodes, e: Edge) -> bool
    requires { (e.parent < 128) × (e.child < 128) }
    ensures { (n : ℕ) → e.parent < n → e.child < n → result ≡ formed_of h.now (nodes_of (nodes_from n
        nodes.now.kind nodes.now.number nodes.now.subject nodes.now.verifier nodes.now.state)) e }
{
    let p = nodes.node(e.parent as usize);
    let c = nodes.node(e.child as usize);
    form(e.kind, h.entity_of(p.verifier), p, c)
}

// Edge j among those before it, which brought b nodes.
fn edge_fits(h: &Header, nodes: &Nodes, edges: &Edges, b: usize, j: usize) -> bool
    requires { (nodes.now.count ≤ 128) × (j < 256)
        × (b ≡ brought (edges_of (edges_from j edges.now.kind edges.now.parent edges.now.child))) × (b ≤ nodes.now.count) }
    ensures { result ≡ edge_fits h.now (nodes_of nodes.now)
        (edges_of (edges_from j edges.now.kind edges.now.parent edges.now.child)) (edge_at edges.now j) }
{
    let e = edges.edge(j);
    if !placed(nodes.count, b, e) {
        return false;
    }
    if !formed(h, nodes, e) {
        return false;
    }
    !edges.has(j, e)
}

// All edges, and they brought every node.
pub fn edges_fit(h: &Header, nodes: &Nodes, edges: &Edges) -> bool
    requires { (0 < nodes.now.count) × (nodes.now.count ≤ 128) × (edges.now.count ≤ 256) }
    ensures { result ≡ all_brought h.now (nodes_of nodes.now) (edges_of edges.now) }
{
    let mut b = 1;
    for j in 0..edges.count {
        if !edge_fits(h, nodes, edges, b, j) {
            return false;
        }
        if edges.child[j] as usize == b {
            b += 1;
        }
    }
    b == nodes.count
}
