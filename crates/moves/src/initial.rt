// The state in which a new node starts.
ghost use Rattle.std.specs.Prelude.{◌≡◌, ◌≤◌};
ghost use Rattle.class.specs.laws.Names.{names_of, Ascending};
ghost use Rattle.moves.specs.Initial.{is_subject_all, traced, initial_state};
ghost use Rattle.numbers.specs.Sizes.{MOST-NAMES};

use class::{Names, SUBJECT_ALL};
use expression::Expression;

pub fn is_subject_all(names: &Names, r: u16) -> bool
    requires { (names.now.count ≤ MOST-NAMES) × Ascending names.now.count names.now.name }
    ensures { result ≡ is_subject_all (names_of names.now) r }
{
    names.class_of(r) == SUBJECT_ALL
}

// Verifier-processed where it is subject-traces-all, else opponent-processed.
#[tactic(auto, unfolding(crate::specs::Initial::traced))]
fn traced_state(all: bool) -> u8
    ensures { result ≡ traced all }
{
    if all { 1 } else { 2 }
}

// own: the node's verifier creates it.
#[tactic(auto, unfolding(crate::specs::Initial::initial_state))]
pub fn initial_state(names: &Names, own: bool, e: Expression) -> u8
    requires { (names.now.count ≤ MOST-NAMES) × Ascending names.now.count names.now.name }
    ensures { result ≡ initial_state (names_of names.now) own e }
{
    match e {
        Expression::Entity(_) => 3,
        Expression::Role(a) => traced_state(is_subject_all(names, a.name)),
        Expression::Linked(a, r) => {
            traced_state(is_subject_all(names, a.name) & is_subject_all(names, r))
        }
        Expression::Intersection(_) => traced_state(!own),
        Expression::Goal(_) => 1,
    }
}
