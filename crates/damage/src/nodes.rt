// The nodes.
ghost use Rattle.std.specs.Prelude.{◌≡◌, [], ◌≤◌, ◌<◌};
ghost use Rattle.class.specs.laws.Names.{names_of, Ascending};
ghost use Rattle.graph.specs.laws.Graph.{nodes_from, nodes_of, node_at};
ghost use Rattle.justification.specs.InTurn.{in_turn};
ghost use Rattle.damage.specs.Records.{is_typed, node_sound, node_fits, primary_sound};
ghost use Rattle.numbers.specs.Sizes.{MOST-NAMES};

use class::{Names, Typing};
use expression::{Expression, is_role_expression, same, well_formed};
use graph::{Node, Nodes, legal_state};
use negotiation::{Header, MEDIATOR};
use numbers::MOST_NODES;

fn is_typed(t: Typing) -> bool
    ensures { result ≡ is_typed t }
{
    !matches!(t, Typing::Ill)
}

// A node by itself.
fn node_sound(names: &Names, x: Node) -> bool
    requires { (names.now.count ≤ MOST-NAMES) × Ascending names.now.count names.now.name }
    ensures { result ≡ node_sound (names_of names.now) x }
{
    let e = x.expression;
    well_formed(e)
        & (0 < x.subject)
        & (x.verifier < 2)
        & legal_state(e, x.state)
        & is_typed(names.type_of(e))
}

// Node i among those before it.
fn node_fits(names: &Names, nodes: &Nodes, i: usize) -> bool
    requires { (names.now.count ≤ MOST-NAMES) × Ascending names.now.count names.now.name × (i < 128) }
    ensures { result ≡ node_fits (names_of names.now) (nodes_of (nodes_from i
        nodes.now.kind nodes.now.number nodes.now.subject nodes.now.verifier nodes.now.state)) (node_at nodes.now i) }
{
    let x = nodes.node(i);
    if !node_sound(names, x) {
        return false;
    }
    nodes.find(i, x.expression, x.verifier, x.subject) == MOST_NODES
}

// All nodes.
pub fn nodes_fit(names: &Names, nodes: &Nodes) -> bool
    requires { (names.now.count ≤ MOST-NAMES) × Ascending names.now.count names.now.name × (nodes.now.count ≤ 128) }
    ensures { result ≡ in_turn (node_fits (names_of names.now)) [] (nodes_of nodes.now) }
{
    for i in 0..nodes.count {
        if !node_fits(names, nodes, i) {
            return false;
        }
    }
    true
}

// The primary.
pub fn primary_sound(h: &Header, x: Node) -> bool
    ensures { result ≡ primary_sound h.now x }
{
    if (x.verifier != MEDIATOR) | (x.subject != h.requester()) {
        return false;
    }
    if h.side == MEDIATOR {
        return same(x.expression, Expression::Role(h.wanted));
    }
    is_role_expression(x.expression)
}
