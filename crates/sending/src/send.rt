// A move as it is sent.
ghost use Rattle.std.specs.Prelude.{◌≡◌, true, ◌≤◌, ◌<◌};
ghost use Rattle.tables.specs.laws.Tables.{tables_of};
ghost use Rattle.negotiation.specs.laws.State.{state_of};
ghost use Rattle.negotiation.specs.State.{within};
ghost use Rattle.moves.specs.declared.Choice.TheVariants as K;
ghost use Rattle.moves.specs.laws.Own.{Prepared, found_move, commands_of};
ghost use Rattle.moves.specs.Rules.{end_in};
ghost use Rattle.rt0.specs.laws.Pool.{credentials};
ghost use Rattle.sending.specs.laws.Fresh.{Fresh};
ghost use Rattle.sending.specs.laws.Edge.{EdgeSent};

use crate::commands::edge_command;
use crate::credentials::{alone, direct_for, needed_for};
use crate::unshown::Unshown;
use graph::IMPLICATION;
use message::Command;
use moves::{Candidate, Choice, Found, Outgoing, Preparation};
use negotiation::Negotiation;
use word::wide;

// An edge into node i behind the credentials it needs.
fn edge(own: &Preparation, n: &Negotiation, unshown: &mut Unshown, i: u8, w: Candidate) -> Outgoing
    requires { Prepared own.now × (within (state_of n.now) ≡ true) × (i < n.now.nodes.count)
        × Fresh (credentials n.now.shown) own.now unshown.old.seen unshown.old.issuer unshown.old.subject }
    ensures sent { EdgeSent (end_in (tables_of own.now.house) (state_of n.now)) i w result }
    ensures fresh { Fresh (credentials n.now.shown) own.now unshown.new.seen unshown.new.issuer unshown.new.subject }
{
    let command = edge_command(&own.house.names, n.header.side, &n.nodes, i, w);
    if w.kind != IMPLICATION {
        return alone(command);
    }
    let x = n.nodes.node(wide(i));
    if w.direct {
        return direct_for(own.house.own, &n.shown, x.expression, command);
    }
    needed_for(own, n, unshown, x, w.expression, command)
}

// The move that is found. Which own credentials are not shown yet is kept beside.
pub fn outgoing(own: &Preparation, n: &Negotiation, unshown: &mut Unshown, found: Found) -> Outgoing
    requires { Prepared own.now × (within (state_of n.now) ≡ true) × (found.node < n.now.nodes.count) × ((found.choice ≡ K.Nothing) → ⊥)
        × Fresh (credentials n.now.shown) own.now unshown.old.seen unshown.old.issuer unshown.old.subject }
    ensures sent { commands_of result ≡ found_move (end_in (tables_of own.now.house) (state_of n.now)) found }
    ensures few { result.pool.count ≤ 128 }
    ensures fresh { Fresh (credentials n.now.shown) own.now unshown.new.seen unshown.new.issuer unshown.new.subject }
{
    match found.choice {
        Choice::Edge(w) => edge(own, n, unshown, found.node, w),
        Choice::Mark => alone(Command::Mark(found.node)),
        Choice::Nothing => alone(Command::End),
    }
}
