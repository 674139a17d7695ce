// The command of an edge.
ghost use Rattle.std.specs.Prelude.{◌≡◌, ◌≤◌};
ghost use Rattle.class.specs.laws.Names.{names_of, Ascending};
ghost use Rattle.graph.specs.laws.Graph.{nodes_of};
ghost use Rattle.sending.specs.laws.Sent.{command_for};
ghost use Rattle.numbers.specs.Sizes.{MOST-NAMES, MOST-NODES};

use class::Names;
use graph::{Edge, Nodes};
use message::{Command, NewEdge};
use moves::{Candidate, initial_state};

// An old child is joined to node i, a new one brought.
pub fn edge_command(names: &Names, side: u8, nodes: &Nodes, i: u8, w: Candidate) -> Command
    requires { (names.now.count ≤ MOST-NAMES) × Ascending names.now.count names.now.name × (nodes.now.count ≤ MOST-NODES) }
    ensures { result ≡ command_for (names_of names.now) side (nodes_of nodes.now) i w }
{
    let j = nodes.find(nodes.count, w.expression, w.verifier, w.subject);
    if j < nodes.count {
        return Command::Join(Edge {
            kind: w.kind,
            parent: i,
            child: j as u8,
        });
    }
    let own = w.verifier == side;
    let state = initial_state(names, own, w.expression);
    Command::Bring(NewEdge {
        kind: w.kind,
        parent: i,
        expression: w.expression,
        subject: w.subject,
        state,
    })
}
