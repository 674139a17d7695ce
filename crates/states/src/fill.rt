// The columns of propagation, filled from a graph.
ghost use Rattle.std.specs.Prelude.{◌≡◌, ◌≤◌, ◌<◌};
ghost use Rattle.expression.specs.declared.Expression.TheVariants as E;
ghost use Rattle.graph.specs.declared.Nodes.{Nodes};
ghost use Rattle.rt0.specs.laws.Pool.{expression_in};
ghost use Rattle.graph.specs.laws.Graph.{nodes_from, nodes_of, edges_of};
ghost use Rattle.states.specs.laws.Brings.{slot_in, slot_as, slot_by, Joined, Needs, Ways};
ghost use Rattle.states.specs.laws.Fields.{need_by, way_by};

use expression::{Parts, Role, same_role};
use graph::{Edges, Nodes};
use numbers::MOST_NODES;
use propagation::Links;

const NO_NODE: u8 = MOST_NODES as u8;

const NEVER: u8 = 5;

const NO_WAY: u8 = 0;

const NO_PLACE: u16 = 4;

const NO_SLOT: u16 = 512;

// How many slots a node needs filled, by its kind, its part count and its state.
#[tactic(auto, unfolding(crate::specs::laws::Fields::need_by))]
fn need_of(kind: u8, parts: u8, state: u8) -> u8
    ensures { result ≡ need_by kind parts state }
{
    match kind {
        1 => 0,
        2 | 3 => 1,
        4 => { if state == 3 { parts } else { NEVER } }
        _ => NEVER,
    }
}

// How it fails.
#[tactic(auto, unfolding(crate::specs::laws::Fields::way_by))]
fn way_of(kind: u8, state: u8) -> u8
    ensures { result ≡ way_by kind state }
{
    match kind {
        2 | 3 => { if state == 3 { 1 } else { NO_WAY } }
        4 => 2,
        _ => NO_WAY,
    }
}

// What the nodes need, whatever their other columns.
pub fn needs(nodes: &Nodes) -> [u8; 128]
    requires { nodes.now.count ≤ 128 }
    ensures { (o : Nodes) → Needs (nodes_of (nodes_from nodes.now.count nodes.now.kind o.number o.subject o.verifier nodes.now.state)) result }
{
    let mut r = [NEVER; 128];
    for i in 0..nodes.count {
        r[i] = need_of(nodes.kind[i * 2], nodes.kind[i * 2 + 1], nodes.state[i]);
    }
    r
}

// How the nodes fail, whatever their other columns.
pub fn ways(nodes: &Nodes) -> [u8; 128]
    requires { nodes.now.count ≤ 128 }
    ensures { (o : Nodes) → Ways (nodes_of (nodes_from nodes.now.count nodes.now.kind o.number o.subject o.verifier nodes.now.state)) result }
{
    let mut r = [NO_WAY; 128];
    for i in 0..nodes.count {
        r[i] = way_of(nodes.kind[i * 2], nodes.state[i]);
    }
    r
}

// Which of the roles of an intersection a is, or 4.
#[tactic(auto, unfolding(crate::specs::laws::Brings::slot_in))]
fn slot_in(p: Parts, a: Role) -> u16
    ensures { result ≡ slot_in p (E.Role a) }
{
    if same_role(a, p.first) {
        return 0;
    }
    if same_role(a, p.second) {
        return 1;
    }
    if p.count == 2 {
        return NO_PLACE;
    }
    if same_role(a, p.third) {
        return 2;
    }
    if p.count == 3 {
        return NO_PLACE;
    }
    if same_role(a, p.fourth) {
        return 3;
    }
    NO_PLACE
}

// Which of the slots of node p an edge of kind k from node c fills, or 4.
fn slot_as(nodes: &Nodes, k: u8, p: usize, c: usize) -> u16
    requires { (p < 128) × (c < 128) }
    ensures { result ≡ slot_as k (expression_in nodes.now.kind nodes.now.number p)
        (expression_in nodes.now.kind nodes.now.number c) }
{
    let t = nodes.kind[p * 2];
    if (t == 2) | (t == 3) {
        if (k == 1) | (k == 4) {
            return 0;
        }
        return NO_PLACE;
    }
    if (t != 4) | (k != 5) | (nodes.kind[c * 2] != 2) {
        return NO_PLACE;
    }
    let number = &nodes.number;
    let x = p * 8;
    let y = c * 8;
    slot_in(
        Parts {
            count: nodes.kind[p * 2 + 1],
            first: Role {
                entity: number[x],
                name: number[x + 1],
            },
            second: Role {
                entity: number[x + 2],
                name: number[x + 3],
            },
            third: Role {
                entity: number[x + 4],
                name: number[x + 5],
            },
            fourth: Role {
                entity: number[x + 6],
                name: number[x + 7],
            },
        },
        Role {
            entity: number[y],
            name: number[y + 1],
        },
    )
}

// The slot that an edge of kind k from node c to node p fills, or 512 where it brings no child.
#[tactic(auto, unfolding(crate::specs::laws::Brings::slot_by))]
fn slot_by(nodes: &Nodes, k: u8, p: u8, c: u8) -> u16
    requires { nodes.now.count ≤ 128 }
    ensures { result ≡ slot_by nodes.now.count k p c (expression_in nodes.now.kind nodes.now.number p)
        (expression_in nodes.now.kind nodes.now.number c) }
{
    let x = p as usize;
    let y = c as usize;
    if (nodes.count <= x) | (nodes.count <= y) {
        return NO_SLOT;
    }
    let s = slot_as(nodes, k, x, y);
    if NO_PLACE <= s {
        return NO_SLOT;
    }
    (p as u16) * 4 + s
}

// The edges as links, whatever the nodes' other columns.
pub fn links(nodes: &Nodes, edges: &Edges) -> Links
    requires { (nodes.now.count ≤ 128) × (edges.now.count ≤ 256) }
    ensures count { result.count ≡ edges.now.count }
    ensures joined { (o : Nodes) → Joined (nodes_of (nodes_from nodes.now.count nodes.now.kind nodes.now.number o.subject o.verifier o.state))
        (edges_of edges.now) result.from result.slot }
{
    let mut links = Links {
        count: edges.count,
        from: [NO_NODE; 256],
        slot: [0; 256],
    };
    for j in 0..edges.count {
        let c = edges.child[j];
        let s = slot_by(nodes, edges.kind[j], edges.parent[j], c);
        if s < NO_SLOT {
            links.from[j] = c;
            links.slot[j] = s;
        }
    }
    links
}
