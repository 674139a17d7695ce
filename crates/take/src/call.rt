// The call: lengths, tables, negotiation, end and turn, then the commands.
ghost use Rattle.std.specs.Prelude.{◌≡◌, true, ◌<◌, OnOk};
ghost use Rattle.tables.specs.laws.Tables.{tables_of};
ghost use Rattle.tables.specs.laws.Decoding.{Housed};
ghost use Rattle.negotiation.specs.laws.State.{state_of};
ghost use Rattle.negotiation.specs.State.{within};
ghost use Rattle.damage.specs.Damage.{sound};
ghost use Rattle.take.specs.laws.Commands.{Room};
ghost use Rattle.take.specs.Take.{message_size, taken_in, take_of};
ghost use Rattle.take.specs.laws.Take.{outcome_of};
ghost use Rattle.numbers.specs.Answer.{buffer_after, answer_of, no_value};
ghost use Rattle.negotiation.specs.Layout.{state_bytes};
ghost use Rattle.standing.specs.Buffers.{scratch_left};

use crate::commands::take_commands;
use applied::after_message;
use negotiation::{Negotiation, write, write_zeros};
use numbers::{ENDED, LENGTH, MOST_MESSAGE_BYTES, SCRATCH_BYTES, TURN};
use standing::{Restored, other_side, sends};
use tables::House;

fn fits(message: usize, scratch: usize) -> bool
    ensures { result ≡ message_size message scratch }
{
    (1 <= message) & (message <= MOST_MESSAGE_BYTES) & (scratch == SCRATCH_BYTES)
}

// What a message does to a negotiation. Where it is refused, what it has left does not count.
#[inline(never)]
fn take_in(house: &House, n: &mut Negotiation, message: &[u8]) -> Result<(), u64>
    requires { Housed house.now × (0 < house.now.own) × (within (state_of n.old) ≡ true)
        × (sound (tables_of house.now) (state_of n.old) ≡ true) }
    ensures taken { outcome_of result n.new ≡ taken_in message.now (tables_of house.now) (state_of n.old) }
    ensures sized { OnOk result (Room n.new) }
{
    let h = n.header;
    if h.end != 0 {
        return Err(ENDED);
    }
    let sender = other_side(h.side);
    if !sends(sender, h.messages) {
        return Err(TURN);
    }
    let moved = take_commands(&house.names, sender, n, message)?;
    after_message(n, sender, moved, false);
    Ok(())
}

// The negotiation goes on by the message: 0, or a refusal number, and then nothing changes.
pub fn take(tables: &[u8], negotiation: &mut [u8], message: &[u8], scratch: &mut [u8]) -> u64
    ensures answered { result ≡ answer_of no_value (take_of tables.now negotiation.old message.now scratch.old) }
    ensures left { negotiation.new ≡ buffer_after state_bytes negotiation.old
        (take_of tables.now negotiation.old message.now scratch.old) }
    ensures cleared { scratch.new ≡ scratch_left scratch.old
        (take_of tables.now negotiation.old message.now scratch.old) }
{
    if !fits(message.len(), scratch.len()) {
        return LENGTH;
    }
    let mut r = Restored::empty();
    if let Err(k) = r.find(tables, negotiation) {
        return k;
    }
    if let Err(k) = take_in(&r.house, &mut r.negotiation, message) {
        return k;
    }
    write(&r.negotiation, negotiation);
    write_zeros(scratch, 0, SCRATCH_BYTES);
    0
}
