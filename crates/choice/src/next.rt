// The search for the next move: nodes by rising number.
ghost use Rattle.std.specs.Prelude.{◌≡◌, true, ◌<◌};
ghost use Rattle.tables.specs.laws.Tables.{tables_of};
ghost use Rattle.graph.specs.laws.Graph.{nodes_of, edges_of};
ghost use Rattle.states.specs.laws.Brings.{NodesFormed, EdgesFormed};
ghost use Rattle.states.specs.laws.Complete.{StateColumns};
ghost use Rattle.negotiation.specs.laws.State.{state_of};
ghost use Rattle.negotiation.specs.State.{within};
ghost use Rattle.moves.specs.Rules.{end_in};
ghost use Rattle.moves.specs.Move.{next_move};
ghost use Rattle.moves.specs.laws.Own.{Prepared, found_move};
ghost use Rattle.candidates.specs.laws.Reach.{Recalls};
ghost use Rattle.choice.specs.laws.Next.{is_nothing, is_unprocessed, BeginsAt, NothingBefore, Resting};
ghost use Rattle.choice.specs.laws.Exhausted.{Exhausted};

use crate::Turn;
use crate::processing::choice_at;
use candidates::{LinkReach, Place};
use moves::{Choice, Found, Preparation};
use negotiation::Negotiation;
use states::NodeStates;

// The kinds of expressions but that of a goal.
const ENTITY: u8 = 1;

const ROLE: u8 = 2;

const LINKED: u8 = 3;

const INTERSECTION: u8 = 4;

// Whether there is nothing to do.
pub fn is_nothing(c: Choice) -> bool
    ensures { result ≡ is_nothing c }
{
    matches!(c, Choice::Nothing)
}

// Whether our side has not processed a node of this verifier and state.
#[tactic(auto, unfolding(crate::specs::laws::Next::is_unprocessed))]
fn is_unprocessed(side: u8, verifier: u8, state: u8) -> bool
    ensures { result ≡ is_unprocessed side verifier state }
{
    if verifier == side {
        return state % 2 != 1;
    }
    state / 2 % 2 != 1
}

// Where the search begins: linked targets look at goals, so behind a move at a goal none is known to rest.
fn begins_at(kind: &[u8; 256], rests: usize) -> usize
    requires { rests < 128 }
    ensures { BeginsAt kind.now rests result }
{
    let k = kind[rests * 2];
    if (k != ENTITY) & (k != ROLE) & (k != LINKED) & (k != INTERSECTION) {
        return 0;
    }
    rests
}

// "Nodes are tried by rising number": the first at which there is something to do. The edges of rule (4) of sensitive roles are done below `passed`, and
// there is nothing to do below `rests`, unless that is a goal. What was found for the linked target visited last is in `last`.
pub fn next_choice(
    own: &Preparation,
    n: &Negotiation,
    states: &NodeStates,
    passed: usize,
    rests: usize,
    last: LinkReach,
) -> Turn
    requires { Prepared own.now × (within (state_of n.now) ≡ true) × (0 < n.now.nodes.count) × NodesFormed (nodes_of n.now.nodes)
        × EdgesFormed (nodes_of n.now.nodes) (edges_of n.now.edges)
        × StateColumns (nodes_of n.now.nodes) (edges_of n.now.edges) states.now.satisfied states.now.failed
        × Exhausted (tables_of own.now.house) (state_of n.now) passed × Resting (tables_of own.now.house) (state_of n.now) rests
        × Recalls own.now last }
    ensures found { next_move (end_in (tables_of own.now.house) (state_of n.now)) ≡ found_move (end_in (tables_of own.now.house) (state_of n.now)) result.found }
    ensures standing { result.found.node < n.now.nodes.count }
    ensures idle { NothingBefore (end_in (tables_of own.now.house) (state_of n.now)) result.found.node }
    ensures recalls { Recalls own.now result.reach }
{
    let side = n.header.side;
    let nodes = &n.nodes;
    let mut reach = last;
    for i in begins_at(&nodes.kind, rests)..nodes.count {
        if is_unprocessed(side, nodes.verifier[i], nodes.state[i]) {
            let node = i as u8;
            let x = nodes.node(i);
            let p = Place {
                negotiation: n,
                number: node,
                node: x,
            };
            reach.visit(own, side, x);
            let choice = choice_at(own, states, &reach.found, &p, passed);
            if !is_nothing(choice) {
                return Turn {
                    found: Found { node, choice },
                    reach,
                };
            }
        }
    }
    Turn {
        found: Found {
            node: 0,
            choice: Choice::Nothing,
        },
        reach,
    }
}
