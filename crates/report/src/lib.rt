// The report on a node of a negotiation.
#![tactic(auto)]

ghost use Rattle.std.specs.Prelude.{◌≡◌, ◌*◌, ◌≤◌, ◌<◌};
ghost use Rattle.graph.specs.laws.Graph.{nodes_of, edges_of};
ghost use Rattle.states.specs.laws.Brings.{NodesFormed, EdgesFormed};
ghost use Rattle.negotiation.specs.laws.State.{state_of};
ghost use Rattle.report.specs.laws.Report.{numbered};
ghost use Rattle.report.specs.Report.{report_on, report_of, packed};
ghost use Rattle.numbers.specs.Answer.{answer_of};
ghost use Rattle.numbers.specs.Sizes.{MOST-EDGES, MOST-NODES, MOST-SHOWN};

use negotiation::{Messages, Negotiation};
use numbers::ABSENT;
use standing::Restored;
use states::state_of;

fn wide(x: u8) -> u64
    ensures { (result ≡ x) × (result < 256) }
{
    x as u64
}

fn wide16(x: u16) -> u64
    ensures { (result ≡ x) × (result < 65536) }
{
    x as u64
}

fn wide_size(x: usize) -> u64
    ensures { result ≡ x }
{
    x as u64
}

// A report in one number.
fn pack(
    state: u8,
    propagated: u8,
    end: u8,
    nodes: usize,
    edges: usize,
    shown: usize,
    messages: Messages,
) -> u64
    requires { (nodes ≤ MOST-NODES) × (edges ≤ MOST-EDGES) × (shown ≤ MOST-SHOWN)
        × (messages.mediator < 1024) × (messages.requester < 1024) }
    ensures { (result ≡ packed (numbered state propagated end nodes edges shown messages)) × (result < 36028797018963968) }
{
    let m = wide16(messages.mediator) + wide16(messages.requester) * 1024;
    let a = wide_size(shown) + m * 128;
    let b = wide_size(edges) + a * 512;
    let c = wide_size(nodes) + b * 256;
    let d = wide(end) + c * 8;
    let e = wide(propagated) + d * 4;
    wide(state) + e * 4
}

// What is reported on node i, in one number.
fn report_on(n: &Negotiation, i: usize) -> u64
    requires { (i < n.now.nodes.count) × (n.now.nodes.count ≤ MOST-NODES) × (n.now.edges.count ≤ MOST-EDGES) × (n.now.shown.count ≤ MOST-SHOWN)
        × (n.now.header.messages.mediator < 1024) × (n.now.header.messages.requester < 1024)
        × NodesFormed (nodes_of n.now.nodes) × EdgesFormed (nodes_of n.now.nodes) (edges_of n.now.edges) }
    ensures { (result ≡ packed (report_on (state_of n.now) i)) × (result < 36028797018963968) }
{
    let propagated = state_of(&n.nodes, &n.edges, i);
    pack(
        n.nodes.state[i],
        propagated,
        n.header.end,
        n.nodes.count,
        n.edges.count,
        n.shown.count,
        n.header.messages,
    )
}

// The report on a node, or a refusal number.
pub fn report(tables: &[u8], negotiation: &[u8], node: u8) -> u64
    ensures { result ≡ answer_of packed (report_of tables.now negotiation.now node) }
{
    let mut r = Restored::empty();
    if let Err(k) = r.find(tables, negotiation) {
        return k;
    }
    let i = node as usize;
    if r.negotiation.nodes.count <= i {
        return ABSENT;
    }
    report_on(&r.negotiation, i) * 256
}
