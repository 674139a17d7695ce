// Begin: a fresh negotiation for the tables of a house.
#![tactic(auto)]

ghost use Rattle.std.specs.Prelude.{◌≡◌};
ghost use Rattle.begin.specs.Begin.{is_requester, role_number, other_number, side_of, begin_of};
ghost use Rattle.numbers.specs.Answer.{buffer_after, answer_of, no_value};
ghost use Rattle.negotiation.specs.Layout.{state_bytes};

use expression::Role;
use negotiation::{Negotiation, write};
use numbers::{LENGTH, OPERAND, OTHER};
use tables::decode;

// Whether no role is wanted: we are the requester.
fn is_requester(entity: u16, name: u16) -> bool
    ensures { result ≡ is_requester entity name }
{
    (entity == 0) & (name == 0)
}

// The wanted role: zero where it may be wanted.
fn role_number(entity: u16, name: u16) -> u64
    ensures { result ≡ role_number entity name }
{
    if is_requester(entity, name) {
        return 0;
    }
    if (entity == 0) | (name == 0) {
        return OPERAND;
    }
    0
}

// The other end: zero where it may be one.
fn other_number(own: u16, other: u16) -> u64
    ensures { result ≡ other_number own other }
{
    if (other == 0) | (other == own) {
        return OTHER;
    }
    0
}

// The mediator is side 0, the requester side 1.
fn side_of(entity: u16, name: u16) -> u8
    ensures { result ≡ side_of entity name }
{
    if is_requester(entity, name) { 1 } else { 0 }
}

// The fresh negotiation goes into its buffer: 0, or a refusal number, and then nothing changes.
pub fn begin(tables: &[u8], negotiation: &mut [u8], other: u16, entity: u16, name: u16) -> u64
    ensures answered { result ≡ answer_of no_value (begin_of tables.now negotiation.old other entity name) }
    ensures left { negotiation.new ≡ buffer_after state_bytes negotiation.old
        (begin_of tables.now negotiation.old other entity name) }
{
    if negotiation.len() != Negotiation::BYTES {
        return LENGTH;
    }
    let own = match decode(tables) {
        Ok(house) => house.own,
        Err(k) => return k,
    };
    let k = role_number(entity, name);
    if k != 0 {
        return k;
    }
    let m = other_number(own, other);
    if m != 0 {
        return m;
    }
    let fresh = Negotiation::fresh(side_of(entity, name), own, other, Role { entity, name });
    write(&fresh, negotiation);
    0
}
