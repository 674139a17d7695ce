// A message is read one command after another from the lent bytes.
#![tactic(auto)]

ghost use Rattle.std.specs.Prelude.{◌≡◌, length};
ghost use Rattle.message.specs.Command.{command_at};
ghost use Rattle.reader.specs.laws.Position.{behind_in, position_after};

use message::{Command, read_command, size_of};

// A message, and the index of the next command in it.
#[derive(Clone, Copy)]
pub struct Reader<'a> {
    pub message: &'a [u8],
    pub at: usize,
}

// What was read, and the index behind it.
#[derive(Clone, Copy)]
pub struct Next {
    pub answer: Result<Command, u64>,
    pub at: usize,
}

impl<'a> Reader<'a> {
    // The message from an index on.
    pub fn start(message: &'a [u8], at: usize) -> Self
        ensures { (result.message ≡ message.entry) × (result.at ≡ at) }
    {
        Reader { message, at }
    }

    // The next command.
    pub fn command(self) -> Result<Command, u64>
        ensures { result ≡ command_at self.entry.message.now self.entry.at }
    {
        read_command(self.message, self.at)
    }

    // The reader behind what it has read.
    pub fn advance(self, read: Result<Command, u64>) -> Self
        ensures { (result.message ≡ self.entry.message) × (result.at ≡ behind_in (length self.entry.message.now) self.entry.at read) }
    {
        Reader {
            message: self.message,
            at: index_behind(self.message, self.at, read),
        }
    }
}

// The index behind what was read at an index. Nothing lies beyond the message.
#[tactic(auto, unfolding(crate::specs::laws::Position::behind_in, crate::specs::laws::Position::behind))]
pub fn index_behind(message: &[u8], at: usize, read: Result<Command, u64>) -> usize
    ensures { result ≡ behind_in (length message.now) at read }
{
    let Ok(c) = read else {
        return at;
    };
    let size = size_of(c);
    if message.len() < at || message.len() - at < size {
        return at;
    }
    at + size
}

// The command at an index, and where the next one stands.
pub fn next_command(message: &[u8], at: usize) -> Next
    ensures { (result.answer ≡ command_at message.now at) × (result.at ≡ position_after message.now at) }
{
    let r = Reader::start(message, at);
    let answer = r.command();
    let behind = r.advance(answer);
    Next {
        answer,
        at: behind.at,
    }
}
