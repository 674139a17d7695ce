// Whether a target has a goal as child that has a satisfied solution.
ghost use Rattle.std.specs.Prelude.{◌≡◌, ◌≤◌, ◌<◌, List};
ghost use Rattle.rt0.specs.Lists.{any};
ghost use Rattle.graph.specs.declared.Nodes.{Nodes};
ghost use Rattle.graph.specs.declared.Edge.{Edge};
ghost use Rattle.graph.specs.laws.Graph.{nodes_from, edges_from, edge_at, nodes_of, edges_of};
ghost use Rattle.justification.specs.Justified.{is_solution_for, solves, solved, monitors};
ghost use Rattle.justification.specs.laws.Justified.{Says};

use expression::{Expression, Role, same};
use graph::{Edges, MONITOR, Nodes, SOLUTION};
use rt0::expression_at;

// Whether y is B.r2, where x is A.r1.r2.
fn is_solution_for(x: Expression, b: u16, y: Expression) -> bool
    ensures { result ≡ is_solution_for x b y }
{
    match x {
        Expression::Linked(_, r) => same(y, Expression::Role(Role { entity: b, name: r })),
        _ => false,
    }
}

// Whether edge j brings the goal g a satisfied solution for x and B, sat being the satisfied nodes, whatever the nodes' other columns.
fn solves_at(
    nodes: &Nodes,
    edges: &Edges,
    sat: &[u8; 128],
    x: Expression,
    b: u16,
    g: u8,
    j: usize,
) -> bool
    requires { (nodes.now.count ≤ 128) × (j < 256) }
    ensures { (o : Nodes) (es : List Edge) → Says (nodes_of
        (nodes_from nodes.now.count nodes.now.kind nodes.now.number o.subject o.verifier o.state)) es sat.now
        → result ≡ solves (nodes_of
        (nodes_from nodes.now.count nodes.now.kind nodes.now.number o.subject o.verifier o.state))
        es x b g (edge_at edges.now j) }
{
    if (edges.kind[j] != SOLUTION) | (edges.parent[j] != g) {
        return false;
    }
    let c = edges.child[j] as usize;
    if nodes.count <= c {
        return false;
    }
    if sat[c] != 1 {
        return false;
    }
    is_solution_for(x, b, expression_at(&nodes.kind, &nodes.number, c))
}

// Whether one of the first m edges brings the goal g one.
fn is_solved(
    nodes: &Nodes,
    m: usize,
    edges: &Edges,
    sat: &[u8; 128],
    x: Expression,
    b: u16,
    g: u8,
) -> bool
    requires { (nodes.now.count ≤ 128) × (m ≤ 256) }
    ensures { (o : Nodes) → Says (nodes_of
        (nodes_from nodes.now.count nodes.now.kind nodes.now.number o.subject o.verifier o.state))
        (edges_of (edges_from m edges.now.kind edges.now.parent edges.now.child)) sat.now
        → result ≡ solved (nodes_of
        (nodes_from nodes.now.count nodes.now.kind nodes.now.number o.subject o.verifier o.state))
        (edges_of (edges_from m edges.now.kind edges.now.parent edges.now.child)) x b g }
{
    for j in 0..m {
        if solves_at(nodes, edges, sat, x, b, g, j) {
            return true;
        }
    }
    false
}

// Whether edge j brings node p a goal that the first m edges solve.
fn monitors_at(
    nodes: &Nodes,
    m: usize,
    edges: &Edges,
    sat: &[u8; 128],
    x: Expression,
    b: u16,
    p: u8,
    j: usize,
) -> bool
    requires { (nodes.now.count ≤ 128) × (m ≤ 256) × (j < m) }
    ensures { (o : Nodes) → Says (nodes_of
        (nodes_from nodes.now.count nodes.now.kind nodes.now.number o.subject o.verifier o.state))
        (edges_of (edges_from m edges.now.kind edges.now.parent edges.now.child)) sat.now
        → result ≡ monitors (nodes_of
        (nodes_from nodes.now.count nodes.now.kind nodes.now.number o.subject o.verifier o.state))
        (edges_of (edges_from m edges.now.kind edges.now.parent edges.now.child)) x b p
        (edge_at edges.now j) }
{
    if (edges.kind[j] != MONITOR) | (edges.parent[j] != p) {
        return false;
    }
    let c = edges.child[j];
    if nodes.count <= c as usize {
        return false;
    }
    is_solved(nodes, m, edges, sat, x, b, c)
}

// Whether the first m edges bring node p a goal as child that has a satisfied solution for x and B, sat being the nodes that they satisfy,
// whatever the nodes' other columns.
pub fn is_monitored_for(
    nodes: &Nodes,
    m: usize,
    edges: &Edges,
    sat: &[u8; 128],
    x: Expression,
    b: u16,
    p: u8,
) -> bool
    requires { (nodes.now.count ≤ 128) × (m ≤ 256) }
    ensures { (o : Nodes) → Says (nodes_of
        (nodes_from nodes.now.count nodes.now.kind nodes.now.number o.subject o.verifier o.state))
        (edges_of (edges_from m edges.now.kind edges.now.parent edges.now.child)) sat.now
        → result ≡ any (monitors (nodes_of
        (nodes_from nodes.now.count nodes.now.kind nodes.now.number o.subject o.verifier o.state))
        (edges_of (edges_from m edges.now.kind edges.now.parent edges.now.child)) x b p)
        (edges_of (edges_from m edges.now.kind edges.now.parent edges.now.child)) }
{
    for j in 0..m {
        if monitors_at(nodes, m, edges, sat, x, b, p, j) {
            return true;
        }
    }
    false
}
