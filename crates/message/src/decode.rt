// A command is read from lent bytes.
ghost use Rattle.std.specs.Prelude.{◌≡◌, ◌<◌, ◌+◌, length};
ghost use Rattle.message.specs.Command.{edge_kind, formed_opening, formed_new, show_at, open_at, bring_at, join_at, mark_at, end_at, command_at};

use crate::{BRING, Command, END, JOIN, MARK, NewEdge, OPEN, Opening, SHOW};
use expression::{Expression, is_role, number_at, read_credential, read_expression, role_at};
use graph::{Edge, legal_state};
use numbers::{
    COMMAND, CREDENTIAL_BYTES, END_BYTES, MARK_BYTES, NEW_EDGE_BYTES, OLD_EDGE_BYTES, OPEN_BYTES,
    OPERAND,
};

// A credential.
#[tactic(auto, unfolding(crate::specs::Command::show_at))]
fn show_at(s: &[u8], at: usize) -> Result<Command, u64>
    requires { at < length s.now }
    ensures { result ≡ show_at s.now at }
{
    if s.len() - at < CREDENTIAL_BYTES {
        return Err(COMMAND);
    }
    let c = read_credential(s, at + 1).ok_or(OPERAND)?;
    Ok(Command::Show(c))
}

// Whether the role has an entity and a name, and the state is legal for it.
fn formed_opening(o: Opening) -> bool
    ensures { result ≡ formed_opening o }
{
    is_role(o.role) & legal_state(Expression::Role(o.role), o.state)
}

// The primary target.
#[tactic(auto, unfolding(crate::specs::Command::open_at))]
fn open_at(s: &[u8], at: usize) -> Result<Command, u64>
    requires { at < length s.now }
    ensures { result ≡ open_at s.now at }
{
    if s.len() - at < OPEN_BYTES {
        return Err(COMMAND);
    }
    let o = Opening {
        role: role_at(s, at + 1),
        state: s[at + 5],
    };
    if formed_opening(o) {
        Ok(Command::Open(o))
    } else {
        Err(OPERAND)
    }
}

// Edge kinds are 1 to 6.
fn is_edge_kind(k: u8) -> bool
    ensures { result ≡ edge_kind k }
{
    (0 < k) & (k < 7)
}

// Whether the kind is one of edges, the subject is not zero, and the state is legal for the child.
fn formed_new(e: NewEdge) -> bool
    ensures { result ≡ formed_new e }
{
    is_edge_kind(e.kind) & (0 < e.subject) & legal_state(e.expression, e.state)
}

// An edge with a new child.
#[tactic(auto, unfolding(crate::specs::Command::bring_at))]
fn bring_at(s: &[u8], at: usize) -> Result<Command, u64>
    requires { at < length s.now }
    ensures { result ≡ bring_at s.now at }
{
    if s.len() - at < NEW_EDGE_BYTES {
        return Err(COMMAND);
    }
    let expression = read_expression(s, at + 3).ok_or(OPERAND)?;
    let e = NewEdge {
        kind: s[at + 1],
        parent: s[at + 2],
        expression,
        subject: number_at(s, at + 21),
        state: s[at + 23],
    };
    if formed_new(e) {
        Ok(Command::Bring(e))
    } else {
        Err(OPERAND)
    }
}

// An edge between old nodes.
#[tactic(auto, unfolding(crate::specs::Command::join_at))]
fn join_at(s: &[u8], at: usize) -> Result<Command, u64>
    requires { at < length s.now }
    ensures { result ≡ join_at s.now at }
{
    if s.len() - at < OLD_EDGE_BYTES {
        return Err(COMMAND);
    }
    let e = Edge {
        kind: s[at + 1],
        parent: s[at + 2],
        child: s[at + 3],
    };
    if is_edge_kind(e.kind) {
        Ok(Command::Join(e))
    } else {
        Err(OPERAND)
    }
}

// A node that its sender has processed.
#[tactic(auto, unfolding(crate::specs::Command::mark_at))]
fn mark_at(s: &[u8], at: usize) -> Result<Command, u64>
    requires { at < length s.now }
    ensures { result ≡ mark_at s.now at }
{
    if s.len() - at < MARK_BYTES {
        return Err(COMMAND);
    }
    Ok(Command::Mark(s[at + 1]))
}

// The end, and nothing after it.
#[tactic(auto, unfolding(crate::specs::Command::end_at))]
fn end_at(s: &[u8], at: usize) -> Result<Command, u64>
    requires { at < length s.now }
    ensures { result ≡ end_at s.now at }
{
    if s.len() - at == END_BYTES {
        Ok(Command::End)
    } else {
        Err(COMMAND)
    }
}

// The command at an index.
#[tactic(auto, unfolding(crate::specs::Command::command_at))]
pub fn read_command(s: &[u8], at: usize) -> Result<Command, u64>
    ensures { result ≡ command_at s.now at }
{
    if s.len() <= at {
        return Err(COMMAND);
    }
    match s[at] {
        SHOW => show_at(s, at),
        OPEN => open_at(s, at),
        BRING => bring_at(s, at),
        JOIN => join_at(s, at),
        MARK => mark_at(s, at),
        END => end_at(s, at),
        _ => Err(COMMAND),
    }
}
