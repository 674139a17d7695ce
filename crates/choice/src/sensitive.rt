// The choice for a sensitive role: (1) the Ack target, (2) and (3) by what is known, (4) the rest, (5) a mark.
ghost use Rattle.std.specs.Prelude.{◌≡◌, ◌<◌};
ghost use Rattle.graph.specs.laws.Graph.{nodes_of, edges_of};
ghost use Rattle.justification.specs.laws.Justified.{Says};
ghost use Rattle.negotiation.specs.laws.State.{state_of};
ghost use Rattle.candidates.specs.laws.Place.{Bounded, done_at};
ghost use Rattle.candidates.specs.laws.Least.{or_else};
ghost use Rattle.choice.specs.laws.Sensitive.{alone as alone_of, control_for, own_for, policy_choice, holding_choice, known_choice};

use crate::known::is_acknowledged;
use candidates::{Place, mark_if, or_else};
use expression::{Expression, Role};
use graph::{CONTROL, IMPLICATION, Node};
use moves::{Candidate, Choice, Holding, Known};
use word::wide;

// An edge into the node, unless it is done.
fn alone(p: &Place, w: Candidate) -> Choice
    requires { Bounded p.now }
    ensures { result ≡ alone_of (done_at p.now) w }
{
    p.better(Choice::Nothing, w)
}

// "a control edge T ← ⟨O : e ← V⟩".
fn control_edge(p: &Place, r: Role) -> Candidate
    ensures { result ≡ control_for (state_of p.now.negotiation.now) p.now.node r }
{
    Candidate {
        kind: CONTROL,
        verifier: (p.node.verifier == 0) as u8,
        expression: Expression::Role(r),
        subject: p.negotiation.header.other,
        direct: false,
    }
}

// "the implication edge T ← ⟨V : O ← O⟩", with the direct credential.
fn own_edge(x: Node) -> Candidate
    ensures { result ≡ own_for x }
{
    Candidate {
        kind: IMPLICATION,
        verifier: x.verifier,
        expression: Expression::Entity(x.subject),
        subject: x.subject,
        direct: true,
    }
}

// The control edge; our own edge once the AC target is satisfied; the rest; a mark.
#[tactic(auto, unfolding(crate::specs::laws::Sensitive::policy_choice))]
fn by_policy(p: &Place, sat: &[u8; 128], r: Role, rest: Choice) -> Choice
    requires { let n = p.now.negotiation.now in
        (p.now.number < n.nodes.count) × Bounded p.now × Says (nodes_of n.nodes) (edges_of n.edges) sat.now }
    ensures { result ≡ policy_choice (state_of p.now.negotiation.now) (done_at p.now) p.now.number p.now.node rest r }
{
    let control = alone(p, control_edge(p, r));
    let satisfied = sat[wide(p.number)] == 1;
    if !is_acknowledged(p.negotiation, sat, r) {
        return or_else(control, or_else(rest, mark_if(satisfied)));
    }
    let own = alone(p, own_edge(p.node));
    or_else(control, or_else(own, or_else(rest, Choice::Mark)))
}

// By what we hold.
#[tactic(auto, unfolding(crate::specs::laws::Sensitive::holding_choice))]
fn by_holding(p: &Place, sat: &[u8; 128], h: Holding, rest: Choice) -> Choice
    requires { let n = p.now.negotiation.now in
        (p.now.number < n.nodes.count) × Bounded p.now × Says (nodes_of n.nodes) (edges_of n.edges) sat.now }
    ensures { result ≡ holding_choice (state_of p.now.negotiation.now) (done_at p.now) p.now.number p.now.node rest h }
{
    match h {
        Holding::Absent => or_else(rest, Choice::Mark),
        Holding::Free => or_else(alone(p, own_edge(p.node)), or_else(rest, Choice::Mark)),
        Holding::Guarded(r) => by_policy(p, sat, r, rest),
    }
}

// By what is known.
#[tactic(auto, unfolding(crate::specs::laws::Sensitive::known_choice))]
pub fn by_known(p: &Place, sat: &[u8; 128], known: Known, rest: Choice) -> Choice
    requires { let n = p.now.negotiation.now in
        (p.now.number < n.nodes.count) × Bounded p.now × Says (nodes_of n.nodes) (edges_of n.edges) sat.now }
    ensures { result ≡ known_choice (state_of p.now.negotiation.now) (done_at p.now) p.now.number p.now.node rest known }
{
    match known {
        Known::Waiting => or_else(rest, mark_if(sat[wide(p.number)] == 1)),
        Known::Seen(h) => by_holding(p, sat, h, rest),
    }
}

// The Ack target's edge comes first.
pub fn behind_ack(p: &Place, ack: Role, rest: Choice) -> Choice
    requires { Bounded p.now }
    ensures { result ≡ or_else (alone_of (done_at p.now) (control_for (state_of p.now.negotiation.now) p.now.node ack)) rest }
{
    or_else(alone(p, control_edge(p, ack)), rest)
}
