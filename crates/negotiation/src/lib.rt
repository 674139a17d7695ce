// The state of one end of a negotiation.
#![tactic(auto)]

ghost use Rattle.std.specs.Prelude.{◌≡◌, ◌≤◌, ◌<◌};
ghost use Rattle.negotiation.specs.laws.State.{state_of};
ghost use Rattle.negotiation.specs.State.{fresh_state, with_node, with_edge, with_shown, with_mark, with_header};
ghost use Rattle.numbers.specs.Sizes.{MOST-NODES, MOST-EDGES, MOST-SHOWN};

pub use decode::{candidate, has_bytes, read};
pub use encode::{write, write_zeros};
pub use ends::{MEDIATOR, REQUESTER};
use expression::{Credential, Role};
use graph::{Edge, Edges, Node, Nodes};
use numbers::{MOST_EDGES, MOST_NODES, MOST_SHOWN, NEGOTIATION_BYTES};
use rt0::Pool;

mod counts;
mod decode;
mod encode;
mod ends;

// Our side (0 mediator, 1 requester), self and the other end, the wanted role (zeros for the requester, who is not told it), the end,
// whether the last message had no open, edge or mark, and the messages of each end.
#[derive(Clone, Copy)]
pub struct Header {
    pub side: u8,
    pub own: u16,
    pub other: u16,
    pub wanted: Role,
    pub end: u8,
    pub idle: u8,
    pub messages: Messages,
}

// How many messages of the mediator and of the requester were accepted or given.
#[derive(Clone, Copy)]
pub struct Messages {
    pub mediator: u16,
    pub requester: u16,
}

// The graph, and the credentials shown so far by either end.
#[derive(Clone, Copy)]
pub struct Negotiation {
    pub header: Header,
    pub nodes: Nodes,
    pub edges: Edges,
    pub shown: Pool,
}

// Where in the bytes the nodes, the edges and the credentials shown begin.
pub const NODES_AT: usize = 128;

pub const EDGES_AT: usize = 2944;

pub const SHOWN_AT: usize = 3712;

// How many bytes a node, an edge and a credential shown have.
pub const NODE_BYTES: usize = 22;

pub const EDGE_BYTES: usize = 3;

pub const SHOWN_BYTES: usize = 22;

impl Negotiation {
    pub const NODES: usize = MOST_NODES;

    pub const EDGES: usize = MOST_EDGES;

    pub const SHOWN: usize = MOST_SHOWN;

    pub const BYTES: usize = NEGOTIATION_BYTES;

    // "A fresh negotiation holds no node, no edge and no credential."
    pub fn fresh(side: u8, own: u16, other: u16, wanted: Role) -> Self
        ensures { state_of result ≡ fresh_state side own other wanted }
    {
        Self {
            header: Header {
                side,
                own,
                other,
                wanted,
                end: 0,
                idle: 0,
                messages: Messages {
                    mediator: 0,
                    requester: 0,
                },
            },
            nodes: Nodes::empty(),
            edges: Edges::empty(),
            shown: Pool::empty(),
        }
    }

    pub fn show(mut self, c: Credential) -> Self
        requires { self.shown.count < MOST-SHOWN }
        ensures { state_of result ≡ with_shown (state_of self) c }
    {
        self.shown.push(c);
        self
    }

    pub fn add_node(mut self, x: Node) -> Self
        requires { self.nodes.count < MOST-NODES }
        ensures { state_of result ≡ with_node (state_of self) x }
    {
        self.nodes.push(x);
        self
    }

    pub fn add_edge(mut self, e: Edge) -> Self
        requires { self.edges.count < MOST-EDGES }
        ensures { state_of result ≡ with_edge (state_of self) e }
    {
        self.edges.push(e);
        self
    }

    // Node i goes into another state.
    pub fn mark(mut self, i: usize, state: u8) -> Self
        requires { (i < self.nodes.count) × (self.nodes.count ≤ MOST-NODES) }
        ensures { state_of result ≡ with_mark (state_of self) i state }
    {
        self.nodes.mark(i, state);
        self
    }

    pub fn with_header(mut self, h: Header) -> Self
        ensures { state_of result ≡ with_header (state_of self) h }
    {
        self.header = h;
        self
    }
}
