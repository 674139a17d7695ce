// The call: lengths, tables, negotiation, end and turn, then the reply.
ghost use Rattle.numbers.specs.Sizes.{MOST-MESSAGE-BYTES};
ghost use Rattle.std.specs.Prelude.{◌≡◌, true, ◌≤◌, length};
ghost use Rattle.tables.specs.laws.Tables.{tables_of};
ghost use Rattle.tables.specs.Accepted.{Sound};
ghost use Rattle.tables.specs.laws.Decoding.{Housed};
ghost use Rattle.negotiation.specs.laws.State.{state_of};
ghost use Rattle.negotiation.specs.State.{within};
ghost use Rattle.damage.specs.Damage.{sound};
ghost use Rattle.reply.specs.Reply.{reply_size, reply_of, reply_left, length_of, given_state};
ghost use Rattle.reply.specs.laws.Reply.{first_open, Begins, Replies};
ghost use Rattle.numbers.specs.Answer.{buffer_after, answer_of};
ghost use Rattle.standing.specs.Buffers.{scratch_left};

use crate::turns::reply_from;
use applied::{after_message, step};
use expression::{Expression, Role};
use message::{Command, Opening, size_of, write_command};
use moves::initial_state;
use negotiation::{Negotiation, write, write_zeros};
use numbers::{ENDED, LEAST_REPLY_BYTES, LENGTH, SCRATCH_BYTES, TURN};
use sending::prepare;
use standing::{Restored, sends};
use tables::House;

fn fits(reply: usize, scratch: usize) -> bool
    ensures { result ≡ reply_size reply scratch }
{
    (LEAST_REPLY_BYTES <= reply) & (scratch == SCRATCH_BYTES)
}

// The command that opens a negotiation about a role.
fn first_open(house: &House, wanted: Role) -> Command
    requires { Housed house.now }
    ensures { result ≡ first_open (tables_of house.now).names wanted }
{
    Command::Open(Opening {
        role: wanted,
        state: initial_state(&house.names, true, Expression::Role(wanted)),
    })
}

// The mediator's first reply starts with open. How many bytes that is.
fn begin(house: &House, n: &mut Negotiation, s: &mut [u8]) -> usize
    requires { Housed house.now × (within (state_of n.old) ≡ true) × (MOST-MESSAGE-BYTES ≤ length s.old) }
    ensures { Begins (tables_of house.now) (state_of n.old) s.old n.new result s.new }
{
    if n.nodes.count != 0 {
        return 0;
    }
    let h = n.header;
    let c = first_open(house, h.wanted);
    write_command(s, 0, c);
    step(n, h.side, c);
    size_of(c)
}

// The moves of a reply; then the end is judged, and the end byte is written. How many bytes the reply has, or why it is refused: then nothing changes.
#[inline(never)]
fn reply_in(house: House, n: &mut Negotiation, s: &mut [u8]) -> Result<usize, u64>
    requires { Housed house × Sound (tables_of house) × (sound (tables_of house) (state_of n.old) ≡ true) × (within (state_of n.old) ≡ true)
        × (MOST-MESSAGE-BYTES ≤ length s.old) }
    ensures { Replies (tables_of house) (state_of n.old) s.old n.new result s.new }
{
    let h = n.header;
    if h.end != 0 {
        return Err(ENDED);
    }
    if !sends(h.side, h.messages) {
        return Err(TURN);
    }
    let begun = begin(&house, n, s);
    let own = prepare(house);
    let r = reply_from(&own, n, begun, s);
    after_message(n, h.side, r.at != 0, r.full);
    write_command(s, r.at, Command::End);
    Ok(r.at + 1)
}

// The negotiation goes on by our reply, which is written into its buffer: 256 times its length, or a refusal number, and then nothing changes.
pub fn reply(tables: &[u8], negotiation: &mut [u8], reply: &mut [u8], scratch: &mut [u8]) -> u64
    ensures answered { result ≡ answer_of length_of (reply_of tables.now negotiation.old reply.old scratch.old) }
    ensures left { negotiation.new ≡ buffer_after given_state negotiation.old
        (reply_of tables.now negotiation.old reply.old scratch.old) }
    ensures written { reply.new ≡ reply_left reply.old
        (reply_of tables.now negotiation.old reply.old scratch.old) }
    ensures cleared { scratch.new ≡ scratch_left scratch.old
        (reply_of tables.now negotiation.old reply.old scratch.old) }
{
    if !fits(reply.len(), scratch.len()) {
        return LENGTH;
    }
    let mut r = Restored::empty();
    if let Err(k) = r.find(tables, negotiation) {
        return k;
    }
    let at = match reply_in(r.house, &mut r.negotiation, reply) {
        Ok(at) => at,
        Err(k) => return k,
    };
    write(&r.negotiation, negotiation);
    write_zeros(scratch, 0, SCRATCH_BYTES);
    at as u64 * 256
}
