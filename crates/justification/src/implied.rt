// Implication edges of kind 1.
ghost use Rattle.std.specs.Prelude.{◌≡◌, ℕ, ◌≤◌, ◌<◌, List, get_or};
ghost use Rattle.rt0.specs.Lists.{all};
ghost use Rattle.rt0.specs.laws.Pool.{credentials, expression_in};
ghost use Rattle.graph.specs.declared.Nodes.{Nodes};
ghost use Rattle.graph.specs.laws.Graph.{nodes_from, edge_at, nodes_of, edges_of};
ghost use Rattle.rules.specs.laws.Table.{chosen};
ghost use Rattle.rules.specs.laws.Ruled.{Ruled};
ghost use Rattle.relation.specs.laws.Relation.{Relation, Answers};
ghost use Rattle.justification.specs.laws.Inside.{Inside};
ghost use Rattle.justification.specs.Justified.{implied_if};
ghost use Rattle.justification.specs.laws.Implied.{implied_from, all_from, all_implied, Children};

use closure::{Rules, dependents};
use expression::Expression;
use graph::{Edges, IMPLICATION, Nodes};
use relation::{column, in_column, relation};
use rt0::{Pool, expression_at};
use rules::rules_of;

// The children of edges of kind 1.
fn children(edges: &Edges) -> [u8; 128]
    requires { (edges.now.count ≤ 256) × ((j : ℕ) → j < edges.now.count → get_or edges.now.child j 0 < 128) }
    ensures { Children edges.now.kind edges.now.child edges.now.count result }
{
    let mut r = [0u8; 128];
    for j in 0..edges.count {
        if edges.kind[j] == IMPLICATION {
            r[edges.child[j] as usize] = 1;
        }
    }
    r
}

// Whether edge j, if it is of kind 1 and from node c, is implied; e is the expression of c, and vals answers what is from it,
// whatever credentials are on.
fn implied_at(
    nodes: &Nodes,
    edges: &Edges,
    shown: &Pool,
    mem: &[u64; 260],
    vals: &[u64; 260],
    e: Expression,
    c: usize,
    j: usize,
) -> bool
    requires { (j < 256) × (get_or edges.now.parent j 0 < 128) × (shown.now.count ≤ 128)
        × (e ≡ expression_in nodes.now.kind nodes.now.number c) }
    ensures { (on : List ℕ) → Relation shown.now on mem.now → Answers shown.now on e 0 vals.now
        → result ≡ implied_from (chosen shown.now on) (expression_in nodes.now.kind nodes.now.number) c
        (edge_at edges.now j) }
{
    if (edges.kind[j] != IMPLICATION) | (edges.child[j] as usize != c) {
        return true;
    }
    let f = expression_at(&nodes.kind, &nodes.number, edges.parent[j] as usize);
    in_column(shown, mem, vals, f, e)
}

// Whether the edges of kind 1 from node c are implied, likewise.
fn implied_from(
    nodes: &Nodes,
    edges: &Edges,
    shown: &Pool,
    mem: &[u64; 260],
    vals: &[u64; 260],
    e: Expression,
    c: usize,
) -> bool
    requires { (edges.now.count ≤ 256) × Inside 128 edges.now × (shown.now.count ≤ 128)
        × (e ≡ expression_in nodes.now.kind nodes.now.number c) }
    ensures { (on : List ℕ) → Relation shown.now on mem.now → Answers shown.now on e 0 vals.now
        → result ≡ all_from (chosen shown.now on) (expression_in nodes.now.kind nodes.now.number) (edges_of edges.now) c }
{
    for j in 0..edges.count {
        if !implied_at(nodes, edges, shown, mem, vals, e, c, j) {
            return false;
        }
    }
    true
}

// Whether the edges of kind 1 from node c are implied, the children of all being used.
fn node_implied(
    nodes: &Nodes,
    edges: &Edges,
    shown: &Pool,
    rules: &Rules,
    deps: &[u64; 260],
    on: &[u8; 128],
    mem: &[u64; 260],
    used: &[u8; 128],
    c: usize,
) -> bool
    requires { (c < 128) × (edges.now.count ≤ 256) × Inside 128 edges.now × (shown.now.count ≤ 128)
        × Ruled shown.now rules.now × Relation shown.now on.now mem.now
        × Children edges.now.kind edges.now.child edges.now.count used.now }
    ensures { result ≡ all_from (chosen shown.now on.now) (expression_in nodes.now.kind nodes.now.number)
        (edges_of edges.now) c }
{
    if used[c] != 1 {
        return true;
    }
    let e = expression_at(&nodes.kind, &nodes.number, c);
    let vals = column(shown, rules, deps, on, mem, e);
    implied_from(nodes, edges, shown, mem, &vals, e, c)
}

// Whether the edges of kind 1 from the nodes are implied.
fn nodes_implied(
    nodes: &Nodes,
    edges: &Edges,
    shown: &Pool,
    rules: &Rules,
    deps: &[u64; 260],
    on: &[u8; 128],
    mem: &[u64; 260],
    used: &[u8; 128],
) -> bool
    requires { (nodes.now.count ≤ 128) × Inside nodes.now.count edges.now × (edges.now.count ≤ 256)
        × Inside 128 edges.now × (shown.now.count ≤ 128) × Ruled shown.now rules.now × Relation shown.now on.now mem.now
        × Children edges.now.kind edges.now.child edges.now.count used.now }
    ensures { result ≡ all_implied (chosen shown.now on.now) (expression_in nodes.now.kind nodes.now.number)
        (edges_of edges.now) }
{
    for c in 0..nodes.count {
        if !node_implied(nodes, edges, shown, rules, deps, on, mem, used, c) {
            return false;
        }
    }
    true
}

// Whether every edge of kind 1 is implied by the credentials, whatever the nodes' other columns: one relation for all, and one column for each child.
pub fn edges_implied(nodes: &Nodes, edges: &Edges, shown: &Pool) -> bool
    requires { (nodes.now.count ≤ 128) × (edges.now.count ≤ 256) × (shown.now.count ≤ 128)
        × Inside nodes.now.count edges.now }
    ensures { (o : Nodes) → result ≡ all (implied_if (credentials shown.now) (nodes_of
        (nodes_from nodes.now.count nodes.now.kind nodes.now.number o.subject o.verifier o.state)))
        (edges_of edges.now) }
{
    let used = children(edges);
    let rules = rules_of(shown);
    let deps = dependents(&rules);
    let on = [1u8; 128];
    let mem = relation(shown, &rules, &deps, &on);
    nodes_implied(nodes, edges, shown, &rules, &deps, &on, &mem, &used)
}
