// What is known of a sensitive role: nothing while its Ack target is unsatisfied, then what we hold. Nothing else in the moves looks at direct
// credentials of sensitive roles or at AC records.
ghost use Rattle.std.specs.Prelude.{◌≡◌, true, ◌≤◌};
ghost use Rattle.tables.specs.laws.Tables.{tables_of};
ghost use Rattle.tables.specs.laws.Decoding.{Housed};
ghost use Rattle.tables.specs.Lookup.{is_sensitive};
ghost use Rattle.tables.specs.Public.{hidden_of};
ghost use Rattle.justification.specs.laws.Justified.{Says};
ghost use Rattle.graph.specs.laws.Graph.{nodes_of, edges_of};
ghost use Rattle.negotiation.specs.laws.State.{state_of};
ghost use Rattle.moves.specs.Known.{is_acknowledged, policy_of, holding_of};
ghost use Rattle.choice.specs.laws.Known.{known_as};
ghost use Rattle.numbers.specs.Sizes.{MOST-NODES};

use expression::{Expression, Role};
use moves::{Holding, Known};
use negotiation::Negotiation;
use tables::House;

// Whether our target for a role of the other end stands and is satisfied.
pub fn is_acknowledged(n: &Negotiation, sat: &[u8; 128], r: Role) -> bool
    requires { (n.now.nodes.count ≤ MOST-NODES) × Says (nodes_of n.now.nodes) (edges_of n.now.edges) sat.now }
    ensures { result ≡ is_acknowledged (state_of n.now) r }
{
    let count = n.nodes.count;
    let i = n
        .nodes
        .find(count, Expression::Role(r), n.header.side, n.header.other);
    if count <= i {
        return false;
    }
    sat[i] == 1
}

fn policy_of(a: Option<Role>) -> Holding
    ensures { result ≡ policy_of a }
{
    match a {
        Some(r) => Holding::Guarded(r),
        None => Holding::Free,
    }
}

// Whether we hold a sensitive role, and under which access policy.
fn holding_of(house: &House, a: Role) -> Holding
    requires { Housed house.now × (is_sensitive (tables_of house.now).sensitive a ≡ true) }
    ensures { result ≡ holding_of (hidden_of (tables_of house.now)) a }
{
    if !house.holds(a) {
        return Holding::Absent;
    }
    policy_of(house.access.other_of(a))
}

// What is known of the role a, its Ack role being given.
pub fn known_of(house: &House, n: &Negotiation, sat: &[u8; 128], a: Role, ack: Role) -> Known
    requires { Housed house.now × (is_sensitive (tables_of house.now).sensitive a ≡ true) × (n.now.nodes.count ≤ MOST-NODES)
        × Says (nodes_of n.now.nodes) (edges_of n.now.edges) sat.now }
    ensures { result ≡ known_as (state_of n.now) (hidden_of (tables_of house.now)) a ack }
{
    if !is_acknowledged(n, sat, ack) {
        return Known::Waiting;
    }
    Known::Seen(holding_of(house, a))
}
