// Which commands are legal.
#![tactic(auto)]

ghost use Rattle.std.specs.Prelude.{◌≡◌, true, ◌≤◌};
ghost use Rattle.class.specs.laws.Names.{names_of, Ascending};
ghost use Rattle.negotiation.specs.laws.State.{state_of};
ghost use Rattle.negotiation.specs.State.{within};
ghost use Rattle.legal.specs.Number.{legal_by};
ghost use Rattle.numbers.specs.Sizes.{MOST-NAMES};

pub use asked::{is_proved, nothing_proved, proved_by};
use class::Names;
use closure::Rules;
use commands::{end_number, mark_number, open_number, show_number};
use edges::{bring_number, join_number};
use expression::Expression;
pub use justify::{is_implication, is_justified, is_linking, satisfied_nodes};
use message::Command;
use negotiation::Negotiation;
use rt0::Pool;

mod asked;
mod commands;
mod edges;
mod justify;

// What the credentials of a pool prove: made once, asked many times.
#[derive(Clone, Copy)]
pub struct Proved {
    pub pool: Pool,
    pub rules: Rules,
    pub deps: [u64; 260],
    pub rows: [u64; 260],
}

// What an implication edge asks: whether the parent is from the child.
#[derive(Clone, Copy)]
pub struct Implication {
    parent: Expression,
    child: Expression,
}

// Why a command of the sender is refused: zero where it is legal. Whether the edge that it adds is justified is given.
pub fn legal(names: &Names, sender: u8, n: &Negotiation, c: Command, justified: bool) -> u64
    requires { (names.now.count ≤ MOST-NAMES) × Ascending names.now.count names.now.name × (within (state_of n.now) ≡ true) }
    ensures { result ≡ legal_by (names_of names.now) sender (state_of n.now) c justified }
{
    match c {
        Command::Show(d) => show_number(names, n, d),
        Command::Open(_) => open_number(n),
        Command::Bring(b) => bring_number(names, sender, n, b, justified),
        Command::Join(e) => join_number(sender, n, e, justified),
        Command::Mark(i) => mark_number(sender, n, i),
        Command::End => end_number(n),
    }
}
