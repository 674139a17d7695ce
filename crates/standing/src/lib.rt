// What a call finds in its tables and its negotiation, and whose turn it is.
#![tactic(auto)]

ghost use Rattle.tables.specs.Tables.{unread};
ghost use Rattle.tables.specs.laws.Tables.{tables_of};
ghost use Rattle.tables.specs.laws.Decoding.{Housed};
ghost use Rattle.negotiation.specs.State.{within};
ghost use Rattle.negotiation.specs.laws.State.{state_of};
ghost use Rattle.damage.specs.Damage.{sound as is_sound};
ghost use Rattle.std.specs.Prelude.{◌≡◌, true, IfOk, OnOk};
ghost use Rattle.standing.specs.laws.Standing.{standing_of, found_of, Usable};
ghost use Rattle.standing.specs.Standing.{restore_of};

use damage::sound;
use expression::Role;
use negotiation::{Negotiation, candidate, has_bytes};
use numbers::{DAMAGED, LENGTH};
use tables::House;
pub use turn::{other_side, sends};

mod turn;

// The tables and the negotiation of a call.
#[derive(Clone, Copy)]
pub struct Restored {
    pub house: House,
    pub negotiation: Negotiation,
}

// Whether a negotiation is sound, judged apart: what that needs of the stack is given back.
#[inline(never)]
fn judged(house: &House, n: &Negotiation) -> bool
    requires { Housed house.now × (within (state_of n.now) ≡ true) }
    ensures { result ≡ is_sound (tables_of house.now) (state_of n.now) }
{
    sound(house, n)
}

impl Restored {
    // No tables, and no negotiation.
    pub fn empty() -> Self
        ensures { tables_of result.house ≡ unread }
    {
        Self {
            house: House::empty(),
            negotiation: Negotiation::fresh(0, 0, 0, Role { entity: 0, name: 0 }),
        }
    }

    // The tables, then the negotiation, each where it lies; else the number of the refusal, and what it then holds does not count.
    pub fn find(&mut self, tables: &[u8], negotiation: &[u8]) -> Result<(), u64>
        requires { tables_of self.old.house ≡ unread }
        ensures found { found_of result self.new ≡ restore_of tables.now negotiation.now }
        ensures kept { OnOk result (Usable self.new) }
    {
        if negotiation.len() != Negotiation::BYTES {
            return Err(LENGTH);
        }
        self.house.fill(tables)?;
        self.negotiation = candidate(negotiation);
        if !has_bytes(&self.negotiation, negotiation) {
            return Err(DAMAGED);
        }
        if !judged(&self.house, &self.negotiation) {
            return Err(DAMAGED);
        }
        Ok(())
    }
}

// The tables, then the negotiation; else the number of the refusal.
pub fn restore(tables: &[u8], negotiation: &[u8]) -> Result<Restored, u64>
    ensures found { standing_of result ≡ restore_of tables.now negotiation.now }
    ensures kept { IfOk result Usable }
{
    let mut found = Restored::empty();
    found.find(tables, negotiation)?;
    Ok(found)
}
