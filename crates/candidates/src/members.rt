// The implication edges to the members of a frontier.
ghost use Rattle.std.specs.Prelude.{◌≡◌, cond, List, ℕ, ◌≤◌};
ghost use Rattle.rt0.specs.laws.Pool.{pool_of};
ghost use Rattle.moves.specs.declared.Choice.TheVariants as C;
ghost use Rattle.moves.specs.Rules.{child_for};
ghost use Rattle.candidates.specs.laws.Place.{Bounded, done_at};
ghost use Rattle.candidates.specs.laws.Least.{better as better_of};
ghost use Rattle.candidates.specs.laws.Offers.{folded, offer};
ghost use Rattle.candidates.specs.laws.Members.{admits as admits_of, is_member, member_edge, Extended};

use crate::Place;
use expression::{Expression, Role, is_entity, same};
use frontier::reached;
use graph::IMPLICATION;
use moves::Choice;
use rt0::Pool;

impl Place<'_> {
    // No entity but the node's subject, and that only where entities are wanted.
    #[tactic(auto, unfolding(crate::specs::laws::Members::admits))]
    fn admits(&self, entities: bool, x: Expression) -> bool
        ensures { result ≡ admits_of entities self.now.node x }
    {
        if !is_entity(x) {
            return true;
        }
        if !entities {
            return false;
        }
        same(x, Expression::Entity(self.node.subject))
    }

    // The best of what is chosen and the edge to an expression, if it is admitted.
    fn with_member(&self, entities: bool, best: Choice, x: Expression) -> Choice
        requires { Bounded self.now }
        ensures { result ≡ cond (admits_of entities self.now.node x)
            (better_of (done_at self.now) best (child_for 1 self.now.node x self.now.node.subject)) best }
    {
        if !self.admits(entities, x) {
            return best;
        }
        self.better(best, self.child_for(IMPLICATION, x, self.node.subject))
    }

    // The best of the edges to all members, whatever the heads.
    pub fn with_members(
        &self,
        pool: &Pool,
        stop: &[u8; 128],
        found: &[u8; 128],
        entities: bool,
    ) -> Choice
        requires { (pool.now.count ≤ 128) × Bounded self.now }
        ensures { (H : List ℕ) → result ≡ folded pool.now.count (offer (done_at self.now)
            (is_member (pool_of pool.now.count H pool.now.kinds pool.now.numbers) stop.now found.now entities self.now.node)
            (member_edge (pool_of pool.now.count H pool.now.kinds pool.now.numbers) self.now.node)) C.Nothing }
    {
        let mut best = Choice::Nothing;
        for k in 0..pool.count {
            if (found[k] == 1) & (stop[k] == 1) {
                best = self.with_member(entities, best, pool.body(k));
            }
        }
        best
    }

    // The best of the edges to the members of the frontier of a role's credentials.
    pub fn with_frontier(
        &self,
        pool: &Pool,
        on: &[u8; 128],
        stop: &[u8; 128],
        entities: bool,
        e: Role,
    ) -> Choice
        requires { (pool.now.count ≤ 128) × Bounded self.now }
        ensures { Extended (done_at self.now) pool.now on.now stop.now entities self.now.node e C.Nothing result }
    {
        let found = reached(pool, on, stop, e);
        self.with_members(pool, stop, &found, entities)
    }
}
