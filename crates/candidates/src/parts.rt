// The edges to the roles of an intersection.
ghost use Rattle.std.specs.Prelude.{◌≡◌};
ghost use Rattle.rt0.specs.From.{roles_of};
ghost use Rattle.moves.specs.declared.Choice.TheVariants as C;
ghost use Rattle.moves.specs.Candidates.{first_not};
ghost use Rattle.moves.specs.Rules.{part_edges};
ghost use Rattle.candidates.specs.laws.Place.{Bounded, done_at};
ghost use Rattle.candidates.specs.laws.Least.{better as better_of};
ghost use Rattle.candidates.specs.laws.Parts.{part_edge};

use crate::Place;
use expression::{Expression, Parts, Role};
use graph::INTERSECTION;
use moves::Choice;

impl Place<'_> {
    fn with_part(&self, best: Choice, a: Role) -> Choice
        requires { Bounded self.now }
        ensures { result ≡ better_of (done_at self.now) best (part_edge self.now.node a) }
    {
        let w = self.child_for(INTERSECTION, Expression::Role(a), self.node.subject);
        self.better(best, w)
    }

    pub fn part_edges(&self, p: Parts) -> Choice
        requires { Bounded self.now }
        ensures { result ≡ first_not (done_at self.now) C.Nothing (part_edges self.now.node (roles_of p)) }
    {
        let a = self.with_part(Choice::Nothing, p.first);
        let b = self.with_part(a, p.second);
        if p.count == 2 {
            return b;
        }
        let c = self.with_part(b, p.third);
        if p.count == 3 {
            return c;
        }
        self.with_part(c, p.fourth)
    }
}
