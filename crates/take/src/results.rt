// What is kept beside the negotiation while commands arrive. It is found again only where an edge asks it and a command has come since that may
// change it.
ghost use Rattle.std.specs.Prelude.{◌≡◌, true, false, ◌≤◌};
ghost use Rattle.graph.specs.laws.Graph.{nodes_of, edges_of};
ghost use Rattle.states.specs.laws.Brings.{NodesFormed};
ghost use Rattle.negotiation.specs.laws.State.{state_of};
ghost use Rattle.negotiation.specs.State.{within};
ghost use Rattle.take.specs.laws.Progress.{is_credential, CurrentStates, Ready, Carried};
ghost use Rattle.numbers.specs.Sizes.{MOST-NODES};

use crate::Progress;
use applied::{is_inside, is_move, keeps_states};
use legal::{is_implication, is_linking, satisfied_nodes};
use message::Command;
use negotiation::Negotiation;

// Whether a command shows a credential.
fn is_credential(c: Command) -> bool
    ensures { result ≡ is_credential c }
{
    matches!(c, Command::Show(_))
}

impl Progress {
    // Nothing as yet.
    pub fn none() -> Self
        ensures { (result.moved ≡ false) × (result.stale ≡ true) × (result.unsettled ≡ true) }
    {
        Self {
            moved: false,
            stale: true,
            sat: [0; 128],
            unsettled: true,
        }
    }

    // When a command is judged: what it asks of the credentials shown is known, and the satisfied nodes are found if it asks them. Where an edge
    // leads into no node they are found each time: a new node might be satisfied.
    pub fn ready(&mut self, n: &Negotiation, c: Command)
        requires { (within (state_of n.now) ≡ true) × NodesFormed (nodes_of n.now.nodes)
            × CurrentStates self.old.unsettled self.old.sat (nodes_of n.now.nodes) (edges_of n.now.edges) }
        ensures { Ready self.old n.now c self.new }
    {
        self.stale = self.stale & !is_implication(c);
        if !(self.unsettled & is_linking(c)) {
            return;
        }
        self.sat = satisfied_nodes(&n.nodes, &n.edges);
        self.unsettled = !is_inside(&n.nodes, &n.edges);
    }

    // Past a command.
    pub fn carry(&mut self, n: &Negotiation, c: Command)
        requires { n.now.nodes.count ≤ MOST-NODES }
        ensures { Carried self.old (nodes_of n.now.nodes) c self.new }
    {
        self.moved = self.moved | is_move(c);
        self.stale = self.stale | is_credential(c);
        if self.unsettled {
            return;
        }
        self.unsettled = !keeps_states(&n.nodes, &self.sat, c);
    }
}
