// A command becomes bytes.
ghost use Rattle.std.specs.Prelude.{◌≡◌, [], ◌∷◌, ◌+◌, ◌≤◌, length};
ghost use Rattle.expression.specs.Bytes.{pasted};
ghost use Rattle.expression.specs.Credential.{credential_bytes};
ghost use Rattle.message.specs.Command.{opening_bytes, new_bytes, edge_bytes, size_of, command_bytes};

use crate::{BRING, Command, END, JOIN, MARK, NewEdge, OPEN, Opening, SHOW};
use expression::{Credential, copy_in, write_credential, write_expression};
use graph::Edge;

fn write_show(s: &mut [u8], at: usize, c: Credential)
    requires { at + 23 ≤ length s.old }
    ensures { s.new ≡ pasted s.old at (1 ∷ credential_bytes c) }
{
    copy_in(s, at, &[SHOW]);
    write_credential(s, at + 1, c);
}

fn write_open(s: &mut [u8], at: usize, o: Opening)
    requires { at + 6 ≤ length s.old }
    ensures { s.new ≡ pasted s.old at (2 ∷ opening_bytes o) }
{
    let role = o.role;
    let b = [
        OPEN,
        (role.entity / 256) as u8,
        (role.entity % 256) as u8,
        (role.name / 256) as u8,
        (role.name % 256) as u8,
        o.state,
    ];
    copy_in(s, at, &b);
}

fn write_bring(s: &mut [u8], at: usize, e: NewEdge)
    requires { at + 24 ≤ length s.old }
    ensures { s.new ≡ pasted s.old at (3 ∷ new_bytes e) }
{
    copy_in(s, at, &[BRING, e.kind, e.parent]);
    write_expression(s, at + 3, e.expression);
    let b = [(e.subject / 256) as u8, (e.subject % 256) as u8, e.state];
    copy_in(s, at + 21, &b);
}

fn write_join(s: &mut [u8], at: usize, e: Edge)
    requires { at + 4 ≤ length s.old }
    ensures { s.new ≡ pasted s.old at (4 ∷ edge_bytes e) }
{
    copy_in(s, at, &[JOIN, e.kind, e.parent, e.child]);
}

fn write_mark(s: &mut [u8], at: usize, node: u8)
    requires { at + 2 ≤ length s.old }
    ensures { s.new ≡ pasted s.old at (5 ∷ node ∷ []) }
{
    copy_in(s, at, &[MARK, node]);
}

fn write_end(s: &mut [u8], at: usize)
    requires { at + 1 ≤ length s.old }
    ensures { s.new ≡ pasted s.old at (6 ∷ []) }
{
    copy_in(s, at, &[END]);
}

// The bytes of a command, from an index.
#[tactic(auto, unfolding(crate::specs::Command::command_bytes))]
pub fn write_command(s: &mut [u8], at: usize, c: Command)
    requires { at + size_of c ≤ length s.old }
    ensures { s.new ≡ pasted s.old at (command_bytes c) }
{
    match c {
        Command::Show(x) => write_show(s, at, x),
        Command::Open(o) => write_open(s, at, o),
        Command::Bring(e) => write_bring(s, at, e),
        Command::Join(e) => write_join(s, at, e),
        Command::Mark(node) => write_mark(s, at, node),
        Command::End => write_end(s, at),
    }
}
