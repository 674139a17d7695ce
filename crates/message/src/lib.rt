// The commands of a message and their bytes.
#![tactic(auto)]

ghost use Rattle.std.specs.Prelude.{◌≡◌};
ghost use Rattle.message.specs.Command.{size_of};

pub use decode::read_command;
pub use encode::write_command;
use expression::{Credential, Expression, Role};
use graph::Edge;
use numbers::{
    CREDENTIAL_BYTES, END_BYTES, MARK_BYTES, NEW_EDGE_BYTES, OLD_EDGE_BYTES, OPEN_BYTES,
};

mod decode;
mod encode;

// The primary target's role and state.
#[derive(Clone, Copy)]
pub struct Opening {
    pub role: Role,
    pub state: u8,
}

// An edge and the child that it brings.
#[derive(Clone, Copy)]
pub struct NewEdge {
    pub kind: u8,
    pub parent: u8,
    pub expression: Expression,
    pub subject: u16,
    pub state: u8,
}

// 0x01 to 0x06.
#[derive(Clone, Copy)]
pub enum Command {
    Show(Credential),
    Open(Opening),
    Bring(NewEdge),
    Join(Edge),
    Mark(u8),
    End,
}

// The first bytes of commands.
pub const SHOW: u8 = 1;

pub const OPEN: u8 = 2;

pub const BRING: u8 = 3;

pub const JOIN: u8 = 4;

pub const MARK: u8 = 5;

pub const END: u8 = 6;

// How many bytes a command has.
pub fn size_of(c: Command) -> usize
    ensures { result ≡ size_of c }
{
    match c {
        Command::Show(_) => CREDENTIAL_BYTES,
        Command::Open(_) => OPEN_BYTES,
        Command::Bring(_) => NEW_EDGE_BYTES,
        Command::Join(_) => OLD_EDGE_BYTES,
        Command::Mark(_) => MARK_BYTES,
        Command::End => END_BYTES,
    }
}
