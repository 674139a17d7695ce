// Names and pairs of roles in columns.
ghost use Rattle.std.specs.Prelude.{◌≡◌, ◌<◌, []};
ghost use Rattle.tables.specs.laws.Tables.{pair_at, pairs_of};
ghost use Rattle.tables.specs.laws.Columns.{NamesStored, PairsStored};

use crate::Pairs;
use class::{Name, Names};
use expression::Role;
use record::Pair;

// The name x becomes the last one.
pub fn push_name(names: &mut Names, x: Name)
    requires { names.old.count < 64 }
    ensures { NamesStored x names.old names.new }
{
    let i = names.count;
    names.name[i] = x.name;
    names.class[i] = x.class;
    names.count = i + 1;
}

impl Pairs {
    #[tactic(auto, unfolding(crate::specs::laws::Tables::pairs_of))]
    pub(crate) fn empty() -> Self
        ensures { pairs_of result ≡ [] }
    {
        Self {
            count: 0,
            roles: [0u16; 64],
            others: [0u16; 64],
        }
    }

    // The pair p becomes the last one.
    pub(crate) fn push(&mut self, p: Pair)
        requires { self.old.count < 32 }
        ensures { PairsStored p self.old self.new }
    {
        let at = self.count * 2;
        self.roles[at] = p.role.entity;
        self.roles[at + 1] = p.role.name;
        self.others[at] = p.other.entity;
        self.others[at + 1] = p.other.name;
        self.count += 1;
    }

    // Pair i.
    pub fn pair(&self, i: usize) -> Pair
        requires { i < 32 }
        ensures { result ≡ pair_at self.now i }
    {
        let at = i * 2;
        Pair {
            role: Role {
                entity: self.roles[at],
                name: self.roles[at + 1],
            },
            other: Role {
                entity: self.others[at],
                name: self.others[at + 1],
            },
        }
    }
}
