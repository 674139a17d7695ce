// The edge to the subject where a frontier has it, else those to what is no entity.
ghost use Rattle.std.specs.Prelude.{◌≡◌, List, ℕ, ◌≤◌, ◌<◌};
ghost use Rattle.rt0.specs.laws.Pool.{pool_of};
ghost use Rattle.candidates.specs.laws.Place.{Bounded, done_at};
ghost use Rattle.candidates.specs.laws.Subject.{is_subject_at, has_subject, SubjectLeads};

use crate::Place;
use expression::{Expression, Role, same};
use frontier::reached;
use graph::IMPLICATION;
use moves::Choice;
use rt0::Pool;

// Whether credential k was found, and its body is a stop and the entity s, whatever the heads.
#[tactic(auto, unfolding(crate::specs::laws::Subject::is_subject_at))]
fn is_subject_at(pool: &Pool, stop: &[u8; 128], found: &[u8; 128], s: u16, k: usize) -> bool
    requires { k < 128 }
    ensures { (m : ℕ) (H : List ℕ) → result ≡ is_subject_at (pool_of m H pool.now.kinds pool.now.numbers) stop.now
        found.now s k }
{
    if (found[k] != 1) | (stop[k] != 1) {
        return false;
    }
    same(pool.body(k), Expression::Entity(s))
}

// Whether the entity s is a member of the frontier, whatever the heads.
fn has_subject(pool: &Pool, stop: &[u8; 128], found: &[u8; 128], s: u16) -> bool
    requires { pool.now.count ≤ 128 }
    ensures { (H : List ℕ) → result ≡ has_subject (pool_of pool.now.count H pool.now.kinds pool.now.numbers) stop.now
        found.now s }
{
    for k in 0..pool.count {
        if is_subject_at(pool, stop, found, s, k) {
            return true;
        }
    }
    false
}

impl Place<'_> {
    // The choice among the edges of the frontier of a role's credentials.
    pub fn to_subject(&self, pool: &Pool, on: &[u8; 128], stop: &[u8; 128], e: Role) -> Choice
        requires { (pool.now.count ≤ 128) × Bounded self.now }
        ensures { SubjectLeads (done_at self.now) pool.now on.now stop.now self.now.node e result }
    {
        let s = self.node.subject;
        let found = reached(pool, on, stop, e);
        if has_subject(pool, stop, &found, s) {
            let w = self.child_for(IMPLICATION, Expression::Entity(s), s);
            return self.better(Choice::Nothing, w);
        }
        self.with_members(pool, stop, &found, false)
    }
}
