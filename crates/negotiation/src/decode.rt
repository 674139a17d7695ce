// Bytes become a negotiation, if they are the bytes of one.
ghost use Rattle.std.specs.Prelude.{◌≡◌, true, ℕ, ◌+◌, ◌*◌, ◌≤◌, length};
ghost use Rattle.rt0.specs.Pool.{up_to};
ghost use Rattle.rt0.specs.laws.Pool.{credentials};
ghost use Rattle.graph.specs.laws.Graph.{nodes_of, edges_of};
ghost use Rattle.negotiation.specs.State.{within};
ghost use Rattle.negotiation.specs.laws.State.{state_of};
ghost use Rattle.numbers.specs.Sizes.{MOST-NODES, MOST-EDGES, MOST-SHOWN, NEGOTIATION-BYTES};
ghost use Rattle.negotiation.specs.Layout.{NODES-AT, EDGES-AT, SHOWN-AT};
ghost use Rattle.negotiation.specs.Layout.{header_from, node_from, edge_from, credential_from, few, candidate_of, same_bytes, state_bytes, read_state};
ghost use Rattle.negotiation.specs.laws.Layout.{reading_of};

use crate::encode::write;
use crate::{
    EDGE_BYTES, EDGES_AT, Header, Messages, NODE_BYTES, NODES_AT, Negotiation, SHOWN_AT,
    SHOWN_BYTES,
};
use expression::{Credential, expression_of, number_at, raw_at, role_at};
use graph::{Edge, Edges, Node, Nodes};
use rt0::Pool;

fn header_from(s: &[u8]) -> Header
    requires { 20 ≤ length s.now }
    ensures { result ≡ header_from s.now }
{
    Header {
        side: s[1],
        own: number_at(s, 2),
        other: number_at(s, 4),
        wanted: role_at(s, 6),
        end: s[10],
        idle: s[11],
        messages: Messages {
            mediator: number_at(s, 12),
            requester: number_at(s, 14),
        },
    }
}

fn node_from(s: &[u8], at: usize) -> Node
    requires { at + 22 ≤ length s.now }
    ensures { result ≡ node_from s.now at }
{
    Node {
        expression: expression_of(raw_at(s, at)),
        subject: number_at(s, at + 18),
        verifier: s[at + 20],
        state: s[at + 21],
    }
}

fn edge_from(s: &[u8], at: usize) -> Edge
    requires { at + 3 ≤ length s.now }
    ensures { result ≡ edge_from s.now at }
{
    Edge {
        kind: s[at],
        parent: s[at + 1],
        child: s[at + 2],
    }
}

fn credential_from(s: &[u8], at: usize) -> Credential
    requires { at + 22 ≤ length s.now }
    ensures { result ≡ credential_from s.now at }
{
    Credential {
        head: role_at(s, at),
        body: expression_of(raw_at(s, at + 4)),
    }
}

fn read_nodes(s: &[u8], count: usize) -> Nodes
    requires { (count ≤ MOST-NODES) × (EDGES-AT ≤ length s.now) }
    ensures { nodes_of result ≡ up_to count (λ (i : ℕ). node_from s.now (NODES-AT + i * 22)) }
{
    let mut nodes = Nodes::empty();
    for i in 0..count {
        nodes.push(node_from(s, NODES_AT + i * NODE_BYTES));
    }
    nodes
}

fn read_edges(s: &[u8], count: usize) -> Edges
    requires { (count ≤ MOST-EDGES) × (SHOWN-AT ≤ length s.now) }
    ensures { edges_of result ≡ up_to count (λ (j : ℕ). edge_from s.now (EDGES-AT + j * 3)) }
{
    let mut edges = Edges::empty();
    for j in 0..count {
        edges.push(edge_from(s, EDGES_AT + j * EDGE_BYTES));
    }
    edges
}

fn read_shown(s: &[u8], count: usize) -> Pool
    requires { (count ≤ MOST-SHOWN) × (NEGOTIATION-BYTES ≤ length s.now) }
    ensures { credentials result ≡ up_to count (λ (k : ℕ). credential_from s.now (SHOWN-AT + k * 22)) }
{
    let mut shown = Pool::empty();
    for k in 0..count {
        shown.push(credential_from(s, SHOWN_AT + k * SHOWN_BYTES));
    }
    shown
}

fn at_most(most: usize, n: usize) -> usize
    ensures { result ≡ few most n }
{
    if n <= most { n } else { 0 }
}

// The only negotiation whose bytes these may be.
pub fn candidate(s: &[u8]) -> Negotiation
    requires { length s.now ≡ NEGOTIATION-BYTES }
    ensures { state_of result ≡ candidate_of s.now }
{
    let nodes = at_most(Negotiation::NODES, s[16] as usize);
    let edges = at_most(Negotiation::EDGES, number_at(s, 17) as usize);
    let shown = at_most(Negotiation::SHOWN, s[19] as usize);
    Negotiation {
        header: header_from(s),
        nodes: read_nodes(s, nodes),
        edges: read_edges(s, edges),
        shown: read_shown(s, shown),
    }
}

// All bytes are compared: the loop has no exit but its end, so that several are compared at once.
fn same_bytes(a: &[u8], b: &[u8]) -> bool
    requires { length a.now ≡ length b.now }
    ensures { result ≡ same_bytes a.now b.now }
{
    let mut same = true;
    for i in 0..a.len() {
        same = same & (a[i] == b[i]);
    }
    same
}

// Whether these are the bytes of a negotiation.
pub fn has_bytes(n: &Negotiation, s: &[u8]) -> bool
    requires { (within (state_of n.now) ≡ true) × (length s.now ≡ NEGOTIATION-BYTES) }
    ensures { result ≡ same_bytes s.now (state_bytes (state_of n.now)) }
{
    let mut buf = [0u8; Negotiation::BYTES];
    write(n, &mut buf);
    same_bytes(s, &buf)
}

pub fn read(s: &[u8]) -> Option<Negotiation>
    requires { length s.now ≡ NEGOTIATION-BYTES }
    ensures { reading_of result ≡ read_state s.now }
{
    let n = candidate(s);
    if has_bytes(&n, s) { Some(n) } else { None }
}
