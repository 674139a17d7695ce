// The records of the house tables and their bytes.
#![tactic(auto)]

ghost use Rattle.std.specs.Prelude.{◌≡◌, ◌<◌, ◌+◌, length};
ghost use Rattle.record.specs.Record.{size_by, formed_name, formed_pair, stored as stored_in, paired as paired_in, own_at, name_at, stored_at, pair_at, record_at};
ghost use Rattle.record.specs.laws.Record.{stored_code, begins_stored};

use class::Name;
use expression::{Credential, Role, is_role, number_at, read_credential, role_at};
use numbers::{COMMAND, CREDENTIAL_BYTES, NAME_BYTES, OPERAND, PAIR_BYTES, SELF_BYTES};

// A sensitive role with its Ack role, or with its AC role.
#[derive(Clone, Copy)]
pub struct Pair {
    pub role: Role,
    pub other: Role,
}

// 0x10 to 0x15.
#[derive(Clone, Copy)]
pub enum Record {
    Own(u16),
    Named(Name),
    IssuerStored(Credential),
    SubjectStored(Credential),
    Sensitive(Pair),
    Access(Pair),
}

// How many bytes a record of a command has; zero: there is no such command.
#[tactic(auto, unfolding(crate::specs::Record::size_by))]
pub fn size_by(code: u8) -> usize
    ensures { result ≡ size_by code }
{
    if code == 16 {
        return SELF_BYTES;
    }
    if code == 17 {
        return NAME_BYTES;
    }
    if (code == 18) | (code == 19) {
        return CREDENTIAL_BYTES;
    }
    if (code == 20) | (code == 21) {
        return PAIR_BYTES;
    }
    0
}

// Self.
#[tactic(auto, unfolding(crate::specs::Record::own_at))]
fn own_at(s: &[u8], at: usize) -> Result<Record, u64>
    requires { at < length s.now }
    ensures { result ≡ own_at s.now at }
{
    if s.len() - at < SELF_BYTES {
        return Err(COMMAND);
    }
    let own = number_at(s, at + 1);
    if own == 0 {
        return Err(OPERAND);
    }
    Ok(Record::Own(own))
}

// Whether a name is not zero and its class is 1 to 3.
fn formed_name(n: Name) -> bool
    ensures { result ≡ formed_name n }
{
    (0 < n.name) & (0 < n.class) & (n.class < 4)
}

// A name and its class.
#[tactic(auto, unfolding(crate::specs::Record::name_at))]
fn name_at(s: &[u8], at: usize) -> Result<Record, u64>
    requires { at < length s.now }
    ensures { result ≡ name_at s.now at }
{
    if s.len() - at < NAME_BYTES {
        return Err(COMMAND);
    }
    let n = Name {
        name: number_at(s, at + 1),
        class: s[at + 3],
    };
    if formed_name(n) {
        Ok(Record::Named(n))
    } else {
        Err(OPERAND)
    }
}

// The record of a stored credential.
fn stored(subject: bool, c: Credential) -> Record
    ensures { result ≡ stored_in subject c }
{
    if subject {
        Record::SubjectStored(c)
    } else {
        Record::IssuerStored(c)
    }
}

// A stored credential.
#[tactic(auto, unfolding(crate::specs::Record::stored_at))]
fn stored_at(s: &[u8], at: usize, subject: bool) -> Result<Record, u64>
    requires { at < length s.now }
    ensures { result ≡ stored_at subject s.now at }
{
    if s.len() - at < CREDENTIAL_BYTES {
        return Err(COMMAND);
    }
    let c = read_credential(s, at + 1).ok_or(OPERAND)?;
    Ok(stored(subject, c))
}

// The first byte of a stored credential.
fn stored_code(subject: bool) -> u8
    ensures { result ≡ stored_code subject }
{
    if subject { 19 } else { 18 }
}

// Whether a stored credential begins at an index, and no byte of it is cut off.
#[tactic(auto, unfolding(crate::specs::laws::Record::begins_stored))]
pub fn begins_stored(s: &[u8], at: usize, subject: bool) -> bool
    requires { at < length s.now }
    ensures { result ≡ begins_stored subject s.now at }
{
    (CREDENTIAL_BYTES <= s.len() - at) & (s[at] == stored_code(subject))
}

// Whether both roles have entities and names.
fn formed_pair(p: Pair) -> bool
    ensures { result ≡ formed_pair p }
{
    let role = p.role;
    let other = p.other;
    is_role(role) & is_role(other)
}

// The record of a pair.
fn paired(access: bool, p: Pair) -> Record
    ensures { result ≡ paired_in access p }
{
    if access {
        Record::Access(p)
    } else {
        Record::Sensitive(p)
    }
}

// A sensitive role and another role.
#[tactic(auto, unfolding(crate::specs::Record::pair_at))]
fn pair_at(s: &[u8], at: usize, access: bool) -> Result<Record, u64>
    requires { at < length s.now }
    ensures { result ≡ pair_at access s.now at }
{
    if s.len() - at < PAIR_BYTES {
        return Err(COMMAND);
    }
    let p = Pair {
        role: role_at(s, at + 1),
        other: role_at(s, at + 5),
    };
    if formed_pair(p) {
        Ok(paired(access, p))
    } else {
        Err(OPERAND)
    }
}

// The record at an index.
#[tactic(auto, unfolding(crate::specs::Record::record_at))]
pub fn read_record(s: &[u8], at: usize) -> Result<Record, u64>
    requires { at < length s.now }
    ensures { result ≡ record_at s.now at }
{
    let code = s[at];
    match code {
        16 => own_at(s, at),
        17 => name_at(s, at),
        18 => stored_at(s, at, false),
        19 => stored_at(s, at, true),
        20 => pair_at(s, at, false),
        21 => pair_at(s, at, true),
        _ => Err(COMMAND),
    }
}
