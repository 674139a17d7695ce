// The commands of a message, one after another.
ghost use Rattle.std.specs.Prelude.{◌≡◌, true, false, ◌≤◌, length, OnOk, OnErr};
ghost use Rattle.class.specs.laws.Names.{names_of, Ascending};
ghost use Rattle.graph.specs.laws.Graph.{nodes_of, edges_of};
ghost use Rattle.states.specs.laws.Brings.{NodesFormed};
ghost use Rattle.negotiation.specs.laws.State.{state_of};
ghost use Rattle.negotiation.specs.State.{within};
ghost use Rattle.legal.specs.Number.{legal_number};
ghost use Rattle.legal.specs.laws.Judged.{Proves, SaysFor};
ghost use Rattle.message.specs.Message.{is_end};
ghost use Rattle.take.specs.Commands.{commands_from};
ghost use Rattle.take.specs.laws.Commands.{taken_of, refusal_of, Room};
ghost use Rattle.numbers.specs.Sizes.{MOST-NAMES};

use crate::Progress;
use applied::step;
use class::Names;
use legal::{is_implication, is_justified, is_proved, legal, nothing_proved, proved_by};
use message::Command;
use negotiation::Negotiation;
use numbers::COMMAND;
use reader::next_command;

// The number of a command that was not read. Document 01 asks for let .. else where it is returned, so that `?` does not stand there.
fn refusal_of(a: Result<Command, u64>) -> u64
    ensures { result ≡ refusal_of a }
{
    match a {
        Ok(_) => 0,
        Err(k) => k,
    }
}

fn is_end(c: Command) -> bool
    ensures { result ≡ is_end c }
{
    matches!(c, Command::End)
}

// Why a command of the sender is refused: zero where it is legal.
fn judge(
    names: &Names,
    sender: u8,
    n: &Negotiation,
    proved: bool,
    sat: &[u8; 128],
    c: Command,
) -> u64
    requires { (names.now.count ≤ MOST-NAMES) × Ascending names.now.count names.now.name × (within (state_of n.now) ≡ true)
        × Proves (state_of n.now) c proved × SaysFor c (nodes_of n.now.nodes) (edges_of n.now.edges) sat.now }
    ensures { result ≡ legal_number (names_of names.now) sender (state_of n.now) c }
{
    let justified = is_justified(n, proved, sat, c);
    legal(names, sender, n, c, justified)
}

// Each command is judged and carried out before the next is read: whether an open, an edge or a mark was among them, or why one is refused, those before it
// being carried out. What the credentials shown prove and which nodes are satisfied is kept beside.
fn carry_out(names: &Names, sender: u8, n: &mut Negotiation, message: &[u8]) -> Result<bool, u64>
    requires { (names.now.count ≤ MOST-NAMES) × Ascending names.now.count names.now.name × (within (state_of n.old) ≡ true)
        × NodesFormed (nodes_of n.old.nodes) }
    ensures taken { taken_of result n.new
        ≡ commands_from (length message.now) (names_of names.now) sender message.now 0 (state_of n.old) false }
    ensures sized { OnOk result (Room n.new) }
{
    let mut known = nothing_proved();
    let mut kept = Progress::none();
    let mut at = 0;
    while at < message.len() {
        let next = next_command(message, at);
        let Ok(c) = next.answer else {
            return Err(refusal_of(next.answer));
        };
        if kept.stale & is_implication(c) {
            known = proved_by(&n.shown);
        }
        kept.ready(n, c);
        let proved = is_proved(n, &known, c);
        let k = judge(names, sender, n, proved, &kept.sat, c);
        if k != 0 {
            return Err(k);
        }
        if is_end(c) {
            return Ok(kept.moved);
        }
        kept.carry(n, c);
        step(n, sender, c);
        at = next.at;
    }
    Err(COMMAND)
}

// The commands of a message: whether an open, an edge or a mark was among them, or why one is refused. Then the negotiation is as it was.
pub fn take_commands(
    names: &Names,
    sender: u8,
    n: &mut Negotiation,
    message: &[u8],
) -> Result<bool, u64>
    requires { (names.now.count ≤ MOST-NAMES) × Ascending names.now.count names.now.name × (within (state_of n.old) ≡ true)
        × NodesFormed (nodes_of n.old.nodes) }
    ensures taken { taken_of result n.new
        ≡ commands_from (length message.now) (names_of names.now) sender message.now 0 (state_of n.old) false }
    ensures sized { OnOk result (Room n.new) }
    ensures kept { OnErr result (n.new ≡ n.old) }
{
    let mut after = *n;
    let moved = carry_out(names, sender, &mut after, message)?;
    *n = after;
    Ok(moved)
}
