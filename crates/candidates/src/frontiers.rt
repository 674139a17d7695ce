// The edges of the frontiers that the rules name.
ghost use Rattle.std.specs.Prelude.{◌≡◌, false, not, [], ◌∷◌};
ghost use Rattle.expression.specs.declared.Expression.TheVariants as E;
ghost use Rattle.expression.specs.Kinds.{is_entity};
ghost use Rattle.tables.specs.laws.Tables.{tables_of};
ghost use Rattle.tables.specs.Lookup.{is_sensitive};
ghost use Rattle.tables.specs.Public.{public_of, keep};
ghost use Rattle.moves.specs.declared.Choice.TheVariants as C;
ghost use Rattle.moves.specs.Frontiers.{bodies_of, frontier_of, oppo, simp, sens};
ghost use Rattle.moves.specs.Candidates.{first_not};
ghost use Rattle.moves.specs.Rules.{implications, to_subject};
ghost use Rattle.moves.specs.laws.Own.{Prepared};
ghost use Rattle.candidates.specs.laws.Place.{Bounded, done_at};

use crate::Place;
use expression::Role;
use moves::{Choice, Preparation};

impl Place<'_> {
    // The verifier's: the oppo frontier of the bodies of 0x12.
    pub fn issuer_edges(&self, own: &Preparation, a: Role) -> Choice
        requires { Prepared own.now × Bounded self.now }
        ensures { result ≡ first_not (done_at self.now) C.Nothing
            (implications self.now.node (frontier_of (oppo (tables_of own.now.house).names) (tables_of own.now.house).issuer_stored
            (bodies_of (tables_of own.now.house).issuer_stored (E.Role a)))) }
    {
        let on = [1u8; 128];
        self.with_frontier(&own.house.issuer, &on, &own.oppo, true, a)
    }

    // Rule (4) of a sensitive role: the sens frontiers of the bodies of its other credentials, less entities.
    pub fn rest_edges(&self, own: &Preparation, a: Role) -> Choice
        requires { Prepared own.now × Bounded self.now }
        ensures { result ≡ first_not (done_at self.now) C.Nothing
            (implications self.now.node (keep (λ y. not (is_entity y))
            (frontier_of (sens (tables_of own.now.house).sensitive) (public_of (tables_of own.now.house)).subject_stored
            (bodies_of (public_of (tables_of own.now.house)).subject_stored (E.Role a))))) }
    {
        self.with_frontier(&own.house.subject, &own.visible, &own.sens, false, a)
    }

    // A role about us that is not sensitive: its sens frontier.
    pub fn plain_edges(&self, own: &Preparation, a: Role) -> Choice
        requires { Prepared own.now × Bounded self.now × (is_sensitive (tables_of own.now.house).sensitive a ≡ false) }
        ensures { result ≡ first_not (done_at self.now) C.Nothing
            (to_subject self.now.node (frontier_of (sens (tables_of own.now.house).sensitive)
            (public_of (tables_of own.now.house)).subject_stored (E.Role a ∷ []))) }
    {
        self.to_subject(&own.house.subject, &own.visible, &own.sens, a)
    }

    // A role about another: its simp frontier.
    pub fn other_edges(&self, own: &Preparation, a: Role) -> Choice
        requires { Prepared own.now × Bounded self.now }
        ensures { result ≡ first_not (done_at self.now) C.Nothing
            (to_subject self.now.node (frontier_of simp (public_of (tables_of own.now.house)).subject_stored (E.Role a ∷ []))) }
    {
        self.to_subject(&own.house.subject, &own.visible, &own.simp, a)
    }
}
