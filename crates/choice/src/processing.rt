// The processing rules: what is to be done at a node.
#![tactic(auto, using(candidates::specs::laws::Least::first_rest), unfolding(moves::specs::Rules::verifier_rules, moves::specs::Rules::opponent_rules, moves::specs::Rules::end_in, moves::specs::Move::choice_at, moves::specs::Candidates::chosen_in, moves::specs::Candidates::first_not, tables::specs::Public::public_of, tables::specs::laws::Tables::tables_of, negotiation::specs::laws::State::state_of))]

ghost use Rattle.std.specs.Prelude.{◌≡◌, ◌<◌};
ghost use Rattle.tables.specs.laws.Tables.{tables_of};
ghost use Rattle.negotiation.specs.laws.State.{state_of};
ghost use Rattle.graph.specs.laws.Graph.{nodes_of};
ghost use Rattle.graph.specs.Graph.{node_in};
ghost use Rattle.expression.specs.declared.Expression.TheVariants as E;
ghost use Rattle.moves.specs.declared.Choice.TheVariants as C;
ghost use Rattle.moves.specs.Candidates.{first_not, chosen_in};
ghost use Rattle.moves.specs.Rules.{end_in, verifier_rules, own_rules, opponent_rules};
ghost use Rattle.moves.specs.Move.{choice_at};
ghost use Rattle.moves.specs.laws.Own.{Prepared};
ghost use Rattle.candidates.specs.laws.Place.{Bounded, done_at};
ghost use Rattle.candidates.specs.laws.Reach.{LinkedBy};
ghost use Rattle.choice.specs.laws.Ready.{Ready};
ghost use Rattle.choice.specs.laws.Asked.{rest_edges, Asked};
ghost use Rattle.choice.specs.laws.Exhausted.{Exhausted};

use crate::known::known_of;
use crate::sensitive::{behind_ack, by_known};
use candidates::{Place, or_else};
use class::{ISSUER_ALL, ISSUER_DEF};
use expression::{Expression, Role};
use moves::{Choice, Preparation};
use states::NodeStates;

// 5.3: a linked target, by the class of its first name.
fn verifier_link(
    own: &Preparation,
    states: &NodeStates,
    found: &[u8; 128],
    p: &Place,
    a: Role,
    r: u16,
) -> Choice
    requires { let n = p.now.negotiation.now in
        Ready own.now n states.now × LinkedBy own.now (E.Linked a r) found.now }
    ensures { result ≡ chosen_in (done_at p.now)
        (verifier_rules (end_in (tables_of own.now.house) (state_of p.now.negotiation.now)) p.now.number p.now.node (E.Linked a r)) }
{
    let k = own.house.names.class_of(a.name);
    if k == ISSUER_DEF {
        return p.link_rules(states, a, r);
    }
    if k != ISSUER_ALL {
        return Choice::Mark;
    }
    or_else(p.all_edges(own, found, r), Choice::Mark)
}

// 5.3, Verifier-Side Processing.
fn verifier_rules(
    own: &Preparation,
    states: &NodeStates,
    found: &[u8; 128],
    p: &Place,
    e: Expression,
) -> Choice
    requires { let n = p.now.negotiation.now in
        Ready own.now n states.now × LinkedBy own.now e found.now }
    ensures { result ≡ chosen_in (done_at p.now)
        (verifier_rules (end_in (tables_of own.now.house) (state_of p.now.negotiation.now)) p.now.number p.now.node e) }
{
    match e {
        Expression::Entity(_) => Choice::Mark,
        Expression::Role(a) => or_else(p.issuer_edges(own, a), Choice::Mark),
        Expression::Linked(a, r) => verifier_link(own, states, found, p, a, r),
        Expression::Intersection(q) => or_else(p.part_edges(q), Choice::Mark),
        Expression::Goal(_) => Choice::Mark,
    }
}

// The edges of rule (4) at the node, unless they are known to be done.
fn rest_of(own: &Preparation, p: &Place, a: Role, passed: usize) -> Choice
    requires { Prepared own.now × Bounded p.now
        × (p.now.number < passed → first_not (done_at p.now) C.Nothing (rest_edges (tables_of own.now.house) p.now.node a) ≡ C.Nothing) }
    ensures { result ≡ first_not (done_at p.now) C.Nothing (rest_edges (tables_of own.now.house) p.now.node a) }
{
    if (p.number as usize) < passed {
        return Choice::Nothing;
    }
    p.rest_edges(own, a)
}

// A role about us: by whether it is sensitive, and what is known of it.
fn own_rules(own: &Preparation, states: &NodeStates, p: &Place, a: Role, passed: usize) -> Choice
    requires { let n = p.now.negotiation.now in
        Ready own.now n states.now × (p.now.number < n.nodes.count)
        × Exhausted (tables_of own.now.house) (state_of n) passed
        × Asked (state_of n) p.now.number p.now.node (E.Role a) × (p.now.node.subject ≡ own.now.house.own) }
    ensures { let o = end_in (tables_of own.now.house) (state_of p.now.negotiation.now) in
        result ≡ chosen_in (done_at p.now) (own_rules o p.now.number p.now.node a o.known) }
{
    let house = &own.house;
    let Some(ack) = house.sensitive.other_of(a) else {
        return or_else(p.plain_edges(own, a), Choice::Mark);
    };
    let rest = rest_of(own, p, a, passed);
    let known = known_of(house, p.negotiation, &states.satisfied, a, ack);
    behind_ack(p, ack, by_known(p, &states.satisfied, known, rest))
}

// A role target, by whether it is about us.
fn opponent_role(
    own: &Preparation,
    states: &NodeStates,
    p: &Place,
    a: Role,
    passed: usize,
) -> Choice
    requires { let n = p.now.negotiation.now in
        Ready own.now n states.now × (p.now.number < n.nodes.count)
        × Exhausted (tables_of own.now.house) (state_of n) passed × Asked (state_of n) p.now.number p.now.node (E.Role a) }
    ensures { result ≡ chosen_in (done_at p.now)
        (opponent_rules (end_in (tables_of own.now.house) (state_of p.now.negotiation.now)) p.now.number p.now.node (E.Role a)) }
{
    if p.node.subject == own.house.own {
        return own_rules(own, states, p, a, passed);
    }
    or_else(p.other_edges(own, a), Choice::Mark)
}

// 5.4, Opponent-Side Processing.
fn opponent_rules(
    own: &Preparation,
    states: &NodeStates,
    p: &Place,
    e: Expression,
    passed: usize,
) -> Choice
    requires { let n = p.now.negotiation.now in
        Ready own.now n states.now × (p.now.number < n.nodes.count)
        × Exhausted (tables_of own.now.house) (state_of n) passed × Asked (state_of n) p.now.number p.now.node e }
    ensures { result ≡ chosen_in (done_at p.now)
        (opponent_rules (end_in (tables_of own.now.house) (state_of p.now.negotiation.now)) p.now.number p.now.node e) }
{
    match e {
        Expression::Entity(_) => Choice::Mark,
        Expression::Role(a) => opponent_role(own, states, p, a, passed),
        Expression::Linked(a, r) => p.link_rules(states, a, r),
        Expression::Intersection(q) => or_else(p.part_edges(q), Choice::Mark),
        Expression::Goal(r) => or_else(p.solutions(own, r), Choice::Mark),
    }
}

// What is to be done at the node: nothing where our side has processed it. The edges of rule (4) of sensitive roles are done below `passed`. What
// is found is for the node, if that is a linked target that we verify.
pub fn choice_at(
    own: &Preparation,
    states: &NodeStates,
    found: &[u8; 128],
    p: &Place,
    passed: usize,
) -> Choice
    requires { let n = p.now.negotiation.now in
        Ready own.now n states.now × (p.now.number < n.nodes.count)
        × Exhausted (tables_of own.now.house) (state_of n) passed × (p.now.node ≡ node_in (nodes_of n.nodes) p.now.number)
        × (p.now.node.verifier ≡ n.header.side → LinkedBy own.now p.now.node.expression found.now) }
    ensures { result ≡ choice_at (end_in (tables_of own.now.house) (state_of p.now.negotiation.now)) p.now.number p.now.node }
{
    let side = p.negotiation.header.side;
    let e = p.node.expression;
    if p.node.is_processed(side) {
        return Choice::Nothing;
    }
    if p.node.verifier == side {
        return verifier_rules(own, states, found, p, e);
    }
    opponent_rules(own, states, p, e, passed)
}
