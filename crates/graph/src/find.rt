// Nodes and edges by their numbers, and searched for.
ghost use Rattle.std.specs.Prelude.{◌≡◌, List, ℕ, ◌≤◌, ◌<◌, get_or};
ghost use Rattle.expression.specs.declared.Expression.{Expression};
ghost use Rattle.expression.specs.Form.{raw_of};
ghost use Rattle.rt0.specs.laws.Pool.{expression_in};
ghost use Rattle.graph.specs.laws.Graph.{nodes_from, edges_from, edge_at, nodes_of, edges_of, edge_in};
ghost use Rattle.graph.specs.Graph.{node_in};
ghost use Rattle.graph.specs.Find.{find_node, same_edge, has_edge};
ghost use Rattle.graph.specs.laws.Find.{is_node_by};

use crate::{Edge, Edges, Node, Nodes};
use expression::{Expression, Raw, raw_of};
use numbers::MOST_NODES;
use rt0::{expression_at, same_expression};

impl Nodes {
    // Node i, however many nodes there are.
    #[tactic(auto, using(crate::specs::laws::Columns::node_in_lem))]
    pub fn node(&self, i: usize) -> Node
        requires { i < 128 }
        ensures { (n : ℕ) → i < n → result ≡ node_in (nodes_of (nodes_from n
            self.now.kind self.now.number self.now.subject self.now.verifier self.now.state)) i }
    {
        Node {
            expression: expression_at(&self.kind, &self.number, i),
            subject: self.subject[i],
            verifier: self.verifier[i],
            state: self.state[i],
        }
    }

    // Whether node i has the expression whose numbers are those of raw, verifier v and subject s.
    fn is_node(&self, raw: Raw, v: u8, s: u16, i: usize) -> bool
        requires { i < 128 }
        ensures { (x : Expression) → raw ≡ raw_of x → result ≡ is_node_by x v s
            (expression_in self.now.kind self.now.number i) (get_or self.now.verifier i 0) (get_or self.now.subject i 0) }
    {
        (self.verifier[i] == v) & (self.subject[i] == s)
            && same_expression(&self.kind, &self.number, raw, i)
    }

    // The first of the first n nodes with expression x, verifier v and subject s, or 128, whatever the states.
    pub fn find(&self, n: usize, x: Expression, v: u8, s: u16) -> usize
        requires { n ≤ 128 }
        ensures { (state : List ℕ) → result ≡ find_node (nodes_of (nodes_from n
            self.now.kind self.now.number self.now.subject self.now.verifier state)) x v s }
    {
        let raw = raw_of(x);
        for i in 0..n {
            if self.is_node(raw, v, s, i) {
                return i;
            }
        }
        MOST_NODES
    }
}

impl Edges {
    // Edge j, however many edges there are.
    #[tactic(auto, using(crate::specs::laws::Columns::edge_in_lem))]
    pub fn edge(&self, j: usize) -> Edge
        requires { j < 256 }
        ensures { (m : ℕ) → j < m → result ≡ edge_in (edges_of (edges_from m
            self.now.kind self.now.parent self.now.child)) j }
    {
        Edge {
            kind: self.kind[j],
            parent: self.parent[j],
            child: self.child[j],
        }
    }

    // Whether edge j is x.
    fn is_edge(&self, x: Edge, j: usize) -> bool
        requires { j < 256 }
        ensures { result ≡ same_edge (edge_at self.now j) x }
    {
        (self.kind[j] == x.kind) & (self.parent[j] == x.parent) & (self.child[j] == x.child)
    }

    // Whether x is one of the first m edges. All are looked at: the loop has no exit but its end, so that several are compared at once.
    pub fn has(&self, m: usize, x: Edge) -> bool
        requires { m ≤ 256 }
        ensures { result ≡ has_edge (edges_of (edges_from m
            self.now.kind self.now.parent self.now.child)) x }
    {
        let mut found = false;
        for j in 0..m {
            found = found | self.is_edge(x, j);
        }
        found
    }
}
