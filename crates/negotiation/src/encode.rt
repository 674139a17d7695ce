// A negotiation becomes bytes: layout number 2.
ghost use Rattle.std.specs.Prelude.{◌≡◌, true, ◌+◌, ◌*◌, ◌-◌, ◌≤◌, length};
ghost use Rattle.expression.specs.Bytes.{pasted};
ghost use Rattle.expression.specs.Credential.{credential_bytes};
ghost use Rattle.graph.specs.laws.Graph.{nodes_of, edges_of};
ghost use Rattle.rt0.specs.laws.Pool.{credentials};
ghost use Rattle.negotiation.specs.laws.State.{state_of};
ghost use Rattle.negotiation.specs.State.{within};
ghost use Rattle.numbers.specs.Sizes.{MOST-NODES, MOST-EDGES, MOST-SHOWN, NEGOTIATION-BYTES};
ghost use Rattle.negotiation.specs.Layout.{NODES-AT, EDGES-AT, SHOWN-AT};
ghost use Rattle.negotiation.specs.Layout.{header_bytes, node_bytes, edge_bytes, zeros, part, state_bytes};

use crate::{
    EDGE_BYTES, EDGES_AT, Header, NODE_BYTES, NODES_AT, Negotiation, SHOWN_AT, SHOWN_BYTES,
};
use expression::{copy_in, write_credential, write_expression};
use graph::{Edge, Edges, Node, Nodes};
use rt0::Pool;

// Zeros from an index up to another.
pub fn write_zeros(buf: &mut [u8], from: usize, to: usize)
    requires { (from ≤ to) × (to ≤ length buf.old) }
    ensures { buf.new ≡ pasted buf.old from (zeros (to - from)) }
{
    for i in from..to {
        buf[i] = 0;
    }
}

// The first 20 bytes.
fn header_bytes(h: Header, nodes: usize, edges: usize, shown: usize) -> [u8; 20]
    requires { (nodes ≤ MOST-NODES) × (edges ≤ MOST-EDGES) × (shown ≤ MOST-SHOWN) }
    ensures { result ≡ header_bytes h nodes edges shown }
{
    [
        2,
        h.side,
        (h.own / 256) as u8,
        (h.own % 256) as u8,
        (h.other / 256) as u8,
        (h.other % 256) as u8,
        (h.wanted.entity / 256) as u8,
        (h.wanted.entity % 256) as u8,
        (h.wanted.name / 256) as u8,
        (h.wanted.name % 256) as u8,
        h.end,
        h.idle,
        (h.messages.mediator / 256) as u8,
        (h.messages.mediator % 256) as u8,
        (h.messages.requester / 256) as u8,
        (h.messages.requester % 256) as u8,
        nodes as u8,
        (edges / 256) as u8,
        (edges % 256) as u8,
        shown as u8,
    ]
}

fn write_node(buf: &mut [u8], at: usize, x: Node)
    requires { at + 22 ≤ length buf.old }
    ensures { buf.new ≡ pasted buf.old at (node_bytes x) }
{
    write_expression(buf, at, x.expression);
    let b = [
        (x.subject / 256) as u8,
        (x.subject % 256) as u8,
        x.verifier,
        x.state,
    ];
    copy_in(buf, at + 18, &b);
}

fn write_edge(buf: &mut [u8], at: usize, e: Edge)
    requires { at + 3 ≤ length buf.old }
    ensures { buf.new ≡ pasted buf.old at (edge_bytes e) }
{
    let b = [e.kind, e.parent, e.child];
    copy_in(buf, at, &b);
}

fn write_nodes(buf: &mut [u8], nodes: &Nodes)
    requires { (nodes.now.count ≤ MOST-NODES) × (EDGES-AT ≤ length buf.old) }
    ensures { buf.new ≡ pasted buf.old NODES-AT (part (MOST-NODES * 22) node_bytes (nodes_of nodes.now)) }
{
    for i in 0..nodes.count {
        write_node(buf, NODES_AT + i * NODE_BYTES, nodes.node(i));
    }
    write_zeros(buf, NODES_AT + nodes.count * NODE_BYTES, EDGES_AT);
}

fn write_edges(buf: &mut [u8], edges: &Edges)
    requires { (edges.now.count ≤ MOST-EDGES) × (SHOWN-AT ≤ length buf.old) }
    ensures { buf.new ≡ pasted buf.old EDGES-AT (part (MOST-EDGES * 3) edge_bytes (edges_of edges.now)) }
{
    for j in 0..edges.count {
        write_edge(buf, EDGES_AT + j * EDGE_BYTES, edges.edge(j));
    }
    write_zeros(buf, EDGES_AT + edges.count * EDGE_BYTES, SHOWN_AT);
}

fn write_shown(buf: &mut [u8], shown: &Pool)
    requires { (shown.now.count ≤ MOST-SHOWN) × (NEGOTIATION-BYTES ≤ length buf.old) }
    ensures { buf.new ≡ pasted buf.old SHOWN-AT (part (MOST-SHOWN * 22) credential_bytes (credentials shown.now)) }
{
    for k in 0..shown.count {
        write_credential(buf, SHOWN_AT + k * SHOWN_BYTES, shown.credential(k));
    }
    write_zeros(
        buf,
        SHOWN_AT + shown.count * SHOWN_BYTES,
        Negotiation::BYTES,
    );
}

// Every byte is written, so what the buffer held before does not matter.
pub fn write(n: &Negotiation, buf: &mut [u8])
    requires { (within (state_of n.now) ≡ true) × (length buf.old ≡ NEGOTIATION-BYTES) }
    ensures { buf.new ≡ state_bytes (state_of n.now) }
{
    let b = header_bytes(n.header, n.nodes.count, n.edges.count, n.shown.count);
    copy_in(buf, 0, &b);
    write_zeros(buf, 20, NODES_AT);
    write_nodes(buf, &n.nodes);
    write_edges(buf, &n.edges);
    write_shown(buf, &n.shown);
}
