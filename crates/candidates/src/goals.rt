// The edges to the solutions of a goal.
ghost use Rattle.std.specs.Prelude.{◌≡◌, cond, ℕ, ◌≤◌, List, map, eqb};
ghost use Rattle.rt0.specs.laws.Pool.{pool_of};
ghost use Rattle.rules.specs.laws.Table.{chosen};
ghost use Rattle.tables.specs.laws.Tables.{pairs_from, pairs_of};
ghost use Rattle.tables.specs.laws.Decoding.{Housed};
ghost use Rattle.moves.specs.declared.Choice.TheVariants as C;
ghost use Rattle.moves.specs.Candidates.{ordered, first_not};
ghost use Rattle.candidates.specs.laws.Place.{Bounded, done_at};
ghost use Rattle.candidates.specs.laws.Least.{better as better_of};
ghost use Rattle.candidates.specs.laws.Offers.{folded, offer};
ghost use Rattle.candidates.specs.laws.Goals.{is_named_pair, pair_edge, is_named_head, head_edge, solution_edge, named_roles};
ghost use Rattle.numbers.specs.Sizes.{MOST-SENSITIVE};

use crate::Place;
use expression::{Expression, Role};
use graph::SOLUTION;
use moves::{Choice, Preparation};
use rt0::Pool;
use tables::Pairs;

impl Place<'_> {
    // The best of what is chosen and the edge to a role, if it has the name r.
    fn with_named(&self, r: u16, best: Choice, a: Role) -> Choice
        requires { Bounded self.now }
        ensures { result ≡ cond (eqb a.name r) (better_of (done_at self.now) best (solution_edge self.now.node a)) best }
    {
        if a.name != r {
            return best;
        }
        let w = self.child_for(SOLUTION, Expression::Role(a), self.node.subject);
        self.better(best, w)
    }

    // The best of the edges to sensitive roles of the name r, whatever the other roles.
    fn with_pairs(&self, pairs: &Pairs, r: u16) -> Choice
        requires { (pairs.now.count ≤ MOST-SENSITIVE) × Bounded self.now }
        ensures { (others : List ℕ) → result ≡ folded pairs.now.count (offer (done_at self.now)
            (is_named_pair (pairs_from pairs.now.count pairs.now.roles others) r)
            (pair_edge (pairs_from pairs.now.count pairs.now.roles others) self.now.node)) C.Nothing }
    {
        let mut best = Choice::Nothing;
        for k in 0..pairs.count {
            best = self.with_named(r, best, pairs.pair(k).role);
        }
        best
    }

    // The best of what is chosen and the edges to the heads of the name r, of the credentials that are on, whatever the bodies.
    fn with_heads(&self, pool: &Pool, on: &[u8; 128], r: u16, start: Choice) -> Choice
        requires { (pool.now.count ≤ 128) × Bounded self.now }
        ensures { (K N : List ℕ) → result ≡ folded pool.now.count (offer (done_at self.now)
            (is_named_head (pool_of pool.now.count pool.now.heads K N) on.now r)
            (head_edge (pool_of pool.now.count pool.now.heads K N) self.now.node)) start }
    {
        let mut best = start;
        for k in 0..pool.count {
            if on[k] == 1 {
                best = self.with_named(r, best, pool.head(k));
            }
        }
        best
    }

    // "any A.r2 ∈ sensitiveRoles or A.r2 defined by a credential".
    pub fn solutions(&self, own: &Preparation, r: u16) -> Choice
        requires { Housed own.now.house × Bounded self.now }
        ensures { result ≡ first_not (done_at self.now) C.Nothing
            (ordered (map (solution_edge self.now.node) (named_roles r (pairs_of own.now.house.sensitive)
            (chosen own.now.house.subject own.now.visible)))) }
    {
        let first = self.with_pairs(&own.house.sensitive, r);
        self.with_heads(&own.house.subject, &own.visible, r, first)
    }
}
