// What a message leaves, once its commands are carried out.
ghost use Rattle.std.specs.Prelude.{◌≡◌, true, ◌<◌};
ghost use Rattle.graph.specs.laws.Graph.{nodes_of, edges_of};
ghost use Rattle.states.specs.laws.Brings.{NodesFormed, EdgesFormed};
ghost use Rattle.negotiation.specs.laws.State.{state_of};
ghost use Rattle.negotiation.specs.Messages.{message_count};
ghost use Rattle.negotiation.specs.State.{within};
ghost use Rattle.applied.specs.After.{end_of, is_stalled, idle_of, header_after, after_message};

use negotiation::{Header, Negotiation};
use states::state_of;

// Success, failed, stalled, full, in this order; else none.
fn end_of(primary: u8, stalled: bool, full: bool) -> u8
    ensures { result ≡ end_of primary stalled full }
{
    if primary == 1 {
        return 1;
    }
    if primary == 2 {
        return 2;
    }
    if stalled {
        return 3;
    }
    if full { 4 } else { 0 }
}

fn is_stalled(moved: bool, idle: u8) -> bool
    ensures { result ≡ is_stalled moved idle }
{
    !moved & (idle == 1)
}

fn idle_of(moved: bool) -> u8
    ensures { result ≡ idle_of moved }
{
    if moved { 0 } else { 1 }
}

fn header_after(sender: u8, primary: u8, moved: bool, full: bool, h: Header) -> Header
    requires { message_count h.messages < 65535 }
    ensures { result ≡ header_after sender primary moved full h }
{
    Header {
        end: end_of(primary, is_stalled(moved, h.idle), full),
        idle: idle_of(moved),
        messages: h.messages.counted(sender),
        ..h
    }
}

// The end is judged, and the message counted for its sender.
pub fn after_message(n: &mut Negotiation, sender: u8, moved: bool, full: bool)
    requires { (within (state_of n.old) ≡ true) × (0 < n.old.nodes.count) × (message_count n.old.header.messages < 65535)
        × NodesFormed (nodes_of n.old.nodes) × EdgesFormed (nodes_of n.old.nodes) (edges_of n.old.edges) }
    ensures { state_of n.new ≡ after_message sender (state_of n.old) moved full }
{
    let primary = state_of(&n.nodes, &n.edges, 0);
    n.header = header_after(sender, primary, moved, full, n.header);
}
