// What the edges of a linked target come from, where its first name is issuer-traces-all. It is found by our tables alone, so that it is kept from one
// visit of a target to the next.
ghost use Rattle.std.specs.Prelude.{◌≡◌, false};
ghost use Rattle.class.specs.laws.Names.{names_of};
ghost use Rattle.class.specs.Names.{class_of};
ghost use Rattle.moves.specs.laws.Own.{Prepared};
ghost use Rattle.candidates.specs.laws.Reach.{LinkFound, LinkedBy, Recalls};

use crate::LinkReach;
use crate::all::{found_from_all, members};
use class::{ISSUER_ALL, SUBJECT_ALL};
use expression::{Expression, Role, same_role};
use graph::Node;
use moves::Preparation;

pub fn no_reach() -> LinkReach
    ensures { result.known ≡ false }
{
    LinkReach {
        known: false,
        role: Role { entity: 0, name: 0 },
        name: 0,
        found: [0u8; 128],
    }
}

// The credentials of the members where the frontier of a role of name r is the role itself, else those that are found from their roles of name r.
fn link_found(own: &Preparation, a: Role, r: u16) -> [u8; 128]
    requires { Prepared own.now }
    ensures { LinkFound own.now a r result }
{
    let house = &own.house;
    let flags = members(&house.issuer, a);
    if house.names.class_of(r) == SUBJECT_ALL {
        return flags;
    }
    let on = [1u8; 128];
    found_from_all(&house.issuer, &on, &own.oppo, &flags, r)
}

impl LinkReach {
    // It becomes what is found for the linked role of these names, unless it was found for this one.
    fn find(&mut self, own: &Preparation, a: Role, r: u16)
        requires { Prepared own.now × Recalls own.now self.old }
        ensures recalls { Recalls own.now self.new }
        ensures found { class_of (names_of own.now.house.names) a.name ≡ 2 → LinkFound own.now a r self.new.found }
    {
        if own.house.names.class_of(a.name) != ISSUER_ALL {
            return;
        }
        if self.known & same_role(self.role, a) & (self.name == r) {
            return;
        }
        *self = Self {
            known: true,
            role: a,
            name: r,
            found: link_found(own, a, r),
        };
    }

    // For a node that our side verifies.
    pub fn visit(&mut self, own: &Preparation, side: u8, x: Node)
        requires { Prepared own.now × Recalls own.now self.old }
        ensures recalls { Recalls own.now self.new }
        ensures found { x.verifier ≡ side → LinkedBy own.now x.expression self.new.found }
    {
        if x.verifier != side {
            return;
        }
        if let Expression::Linked(a, r) = x.expression {
            self.find(own, a, r);
        }
    }
}
