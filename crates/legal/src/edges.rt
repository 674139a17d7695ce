// Edges, between old nodes or with a new child.
ghost use Rattle.std.specs.Prelude.{◌≡◌, List, ℕ, ◌≤◌};
ghost use Rattle.class.specs.laws.Names.{names_of, Ascending};
ghost use Rattle.graph.specs.laws.Graph.{nodes_from, edges_of};
ghost use Rattle.negotiation.specs.State.{State};
ghost use Rattle.negotiation.specs.laws.State.{state_of};
ghost use Rattle.legal.specs.laws.Edge.{JoinAt, BringAt, added_number};
ghost use Rattle.legal.specs.Number.{formed_as, join_wrong, join_number, type_number, bring_wrong, bring_number};
ghost use Rattle.numbers.specs.Sizes.{MOST-NAMES, MOST-NODES, MOST-EDGES};

use applied::child_of;
use class::{Names, Typing};
use graph::{Edge, Edges, Node, Nodes, form};
use message::NewEdge;
use negotiation::{Header, Negotiation};
use numbers::{ABSENT, CLASS, FULL, MOST_NODES, OPENING, PRESENT, PROCESSED, UNJUSTIFIED};
use word::wide;

// An edge from c to p has the form of its kind.
fn formed_as(h: Header, kind: u8, p: Node, c: Node) -> bool
    ensures { result ≡ formed_as h kind p c }
{
    form(kind, h.entity_of(p.verifier), p, c)
}

// Whether an edge from c to p may not be added by its form, or is there.
fn join_wrong(h: Header, edges: &Edges, p: Node, c: Node, e: Edge) -> bool
    requires { edges.now.count ≤ MOST-EDGES }
    ensures { (S : State) → JoinAt S h (edges_of edges.now) p c e → result ≡ join_wrong S e }
{
    if !formed_as(h, e.kind, p, c) {
        return true;
    }
    if e.parent == e.child {
        return true;
    }
    edges.has(edges.count, e)
}

// The rules for an edge into p that has its form and is new.
fn added_number(side: u8, p: Node, justified: bool, full: bool) -> u64
    ensures { result ≡ added_number side p justified full }
{
    if !justified {
        return UNJUSTIFIED;
    }
    if p.is_processed(side) {
        return PROCESSED;
    }
    if full {
        return FULL;
    }
    0
}

pub fn join_number(side: u8, n: &Negotiation, e: Edge, justified: bool) -> u64
    requires { (n.now.nodes.count ≤ MOST-NODES) × (n.now.edges.count ≤ MOST-EDGES) }
    ensures { result ≡ join_number side (state_of n.now) e justified }
{
    let count = n.nodes.count;
    if count == 0 {
        return OPENING;
    }
    if count <= wide(e.parent) {
        return ABSENT;
    }
    if count <= wide(e.child) {
        return ABSENT;
    }
    let p = n.nodes.node(e.parent as usize);
    let c = n.nodes.node(e.child as usize);
    if join_wrong(n.header, &n.edges, p, c, e) {
        return PRESENT;
    }
    added_number(side, p, justified, Negotiation::EDGES <= n.edges.count)
}

fn type_number(t: Typing) -> u64
    ensures { result ≡ type_number t }
{
    match t {
        Typing::Ill => CLASS,
        Typing::Any | Typing::Class(_) => 0,
    }
}

// Whether a new child of p is not allowed by its form, or stands, whatever the states of the nodes.
fn bring_wrong(h: Header, nodes: &Nodes, p: Node, b: NewEdge) -> bool
    requires { nodes.now.count ≤ MOST-NODES }
    ensures { (state : List ℕ) (S : State)
        → BringAt S h (nodes_from nodes.now.count nodes.now.kind nodes.now.number nodes.now.subject nodes.now.verifier state) p b
        → result ≡ bring_wrong S b }
{
    let c = child_of(p, b);
    if !formed_as(h, b.kind, p, c) {
        return true;
    }
    nodes.find(nodes.count, b.expression, c.verifier, b.subject) != MOST_NODES
}

pub fn bring_number(names: &Names, side: u8, n: &Negotiation, b: NewEdge, justified: bool) -> u64
    requires { (names.now.count ≤ MOST-NAMES) × Ascending names.now.count names.now.name × (n.now.nodes.count ≤ MOST-NODES)
        × (n.now.edges.count ≤ MOST-EDGES) }
    ensures { result ≡ bring_number (names_of names.now) side (state_of n.now) b justified }
{
    let k = type_number(names.type_of(b.expression));
    if k != 0 {
        return k;
    }
    let count = n.nodes.count;
    if count == 0 {
        return OPENING;
    }
    if count <= wide(b.parent) {
        return ABSENT;
    }
    let parent = n.nodes.node(b.parent as usize);
    if bring_wrong(n.header, &n.nodes, parent, b) {
        return PRESENT;
    }
    let full = (Negotiation::NODES <= count) | (Negotiation::EDGES <= n.edges.count);
    added_number(side, parent, justified, full)
}
