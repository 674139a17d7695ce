// The moves of a reply, one after another.
ghost use Rattle.numbers.specs.Sizes.{MOST-MESSAGE-BYTES};
ghost use Rattle.std.specs.Prelude.{◌≡◌, cond, ◌+◌, ◌≤◌, ltb, length};
ghost use Rattle.tables.specs.laws.Tables.{tables_of};
ghost use Rattle.negotiation.specs.laws.State.{state_of};
ghost use Rattle.moves.specs.laws.Own.{Prepared};
ghost use Rattle.legality.specs.laws.Going.{Going};
ghost use Rattle.reply.specs.laws.Turns.{rest_from};
ghost use Rattle.reply.specs.laws.Writing.{Gives};

use crate::Written;
use crate::carry::{carry, room_for, size_of_outgoing};
use candidates::no_reach;
use choice::{is_nothing, next_choice, resting};
use moves::Preparation;
use negotiation::Negotiation;
use numbers::MOST_MESSAGE_BYTES;
use sending::{Unshown, outgoing};
use states::{NodeStates, node_states};
use word::wide;

fn larger(a: usize, b: usize) -> usize
    ensures { result ≡ cond (ltb a b) b a }
{
    if a < b { b } else { a }
}

// Each move is written behind the last, and the negotiation goes on by it. Below a node at which a move was made there was nothing left to do; what was
// done by rule (4) there stays done, and targets there rest while the satisfied nodes and the solutions that failed are the same.
pub fn reply_from(own: &Preparation, n: &mut Negotiation, from: usize, s: &mut [u8]) -> Written
    requires { Prepared own.now × Going (tables_of own.now.house) (state_of n.old) × (from + 1 ≤ MOST-MESSAGE-BYTES)
        × (MOST-MESSAGE-BYTES ≤ length s.old) }
    ensures { Gives (tables_of own.now.house) (rest_from MOST-MESSAGE-BYTES (tables_of own.now.house) (state_of n.old) from) from
        s.old n.new result s.new }
{
    let mut at = from;
    let mut left = MOST_MESSAGE_BYTES;
    let mut passed = 0;
    let mut waiting = 0;
    let mut last = NodeStates {
        satisfied: [0; 128],
        failed: [0; 128],
    };
    let mut reach = no_reach();
    let mut unshown = Unshown::new(own);
    while 0 < left {
        let states = node_states(&n.nodes, &n.edges);
        if states.satisfied[0] == 1 {
            return Written { at, full: false };
        }
        let rests = resting(&n.edges, &states, &last, waiting);
        let turn = next_choice(own, n, &states, passed, rests, reach);
        if is_nothing(turn.found.choice) {
            return Written { at, full: false };
        }
        let out = outgoing(own, n, &mut unshown, turn.found);
        if !room_for(n, &out) {
            return Written { at, full: true };
        }
        let size = size_of_outgoing(&out);
        if MOST_MESSAGE_BYTES < at + size + 1 {
            return Written { at, full: false };
        }
        carry(s, at, n, &out);
        at += size;
        waiting = wide(turn.found.node);
        passed = larger(passed, waiting);
        last = states;
        reach = turn.reach;
        left -= 1;
    }
    Written { at, full: false }
}
