// The trust target graph: nodes and edges in columns.
#![tactic(auto)]

ghost use Rattle.std.specs.Prelude.{◌≡◌, [], ◌∷◌, ◌++◌, ◌≤◌, ◌<◌, set};
ghost use Rattle.graph.specs.laws.Columns.{NodesSized, EdgesSized};
ghost use Rattle.graph.specs.laws.Graph.{nodes_of, edges_of};
ghost use Rattle.graph.specs.Graph.{node_in, in_state};

use expression::{Expression, raw_of};
pub use forms::{
    CONTROL, IMPLICATION, INTERSECTION, LINKING_IMPLICATION, MONITOR, SOLUTION, form, is_named,
    legal_state,
};
use rt0::{store_kind, store_numbers};

mod find;
mod forms;
mod processed;

// A target, or a linking goal: what its verifier (0 mediator, 1 requester) wants to see proved of its subject. Bit 0 of its
// state says that the verifier has processed it, bit 1 that the opponent has.
#[derive(Clone, Copy)]
pub struct Node {
    pub expression: Expression,
    pub subject: u16,
    pub verifier: u8,
    pub state: u8,
}

// An edge of kinds 1 to 6, from its child to its parent.
#[derive(Clone, Copy)]
pub struct Edge {
    pub kind: u8,
    pub parent: u8,
    pub child: u8,
}

// Nodes in the order in which they were added. Their expressions stand as in a pool: the kind and part count at 2 i, the eight numbers at 8 i.
#[derive(Clone, Copy)]
pub struct Nodes {
    pub count: usize,
    pub kind: [u8; 256],
    pub number: [u16; 1024],
    pub subject: [u16; 128],
    pub verifier: [u8; 128],
    pub state: [u8; 128],
}

// Edges in the order in which they were added.
#[derive(Clone, Copy)]
pub struct Edges {
    pub count: usize,
    pub kind: [u8; 256],
    pub parent: [u8; 256],
    pub child: [u8; 256],
}

impl Nodes {
    #[tactic(auto, unfolding(crate::specs::laws::Graph::nodes_of))]
    pub fn empty() -> Self
        ensures { (nodes_of result ≡ []) × NodesSized result }
    {
        Self {
            count: 0,
            kind: [0; 256],
            number: [0; 1024],
            subject: [0; 128],
            verifier: [0; 128],
            state: [0; 128],
        }
    }

    pub fn push(&mut self, x: Node)
        requires { self.old.count < 128 }
        ensures { nodes_of self.new ≡ nodes_of self.old ++ (x ∷ []) }
    {
        let i = self.count;
        let r = raw_of(x.expression);
        store_kind(&mut self.kind, i, r);
        store_numbers(&mut self.number, i, r);
        self.subject[i] = x.subject;
        self.verifier[i] = x.verifier;
        self.state[i] = x.state;
        self.count = i + 1;
    }

    // Node i goes into another state.
    pub fn mark(&mut self, i: usize, state: u8)
        requires { (i < self.old.count) × (self.old.count ≤ 128) }
        ensures { nodes_of self.new ≡ set (nodes_of self.old) i (in_state state (node_in (nodes_of self.old) i)) }
    {
        self.state[i] = state;
    }
}

impl Edges {
    #[tactic(auto, unfolding(crate::specs::laws::Graph::edges_of))]
    pub fn empty() -> Self
        ensures { (edges_of result ≡ []) × EdgesSized result }
    {
        Self {
            count: 0,
            kind: [0; 256],
            parent: [0; 256],
            child: [0; 256],
        }
    }

    pub fn push(&mut self, x: Edge)
        requires { self.old.count < 256 }
        ensures { edges_of self.new ≡ edges_of self.old ++ (x ∷ []) }
    {
        let j = self.count;
        self.kind[j] = x.kind;
        self.parent[j] = x.parent;
        self.child[j] = x.child;
        self.count = j + 1;
    }
}
