// The credential list of an RT0 question.
ghost use Rattle.std.specs.Prelude.{◌≡◌, [], ◌≤◌, ◌<◌, length, IfOk, OnOk};
ghost use Rattle.rt0.specs.laws.Pool.{credentials};
ghost use Rattle.numbers.specs.Sizes.{MOST-CREDENTIALS, MOST-CREDENTIALS-BYTES};
ghost use Rattle.question.specs.Credentials.{credential_step, end_step, step_at, credentials_of};
ghost use Rattle.question.specs.laws.Credentials.{listed_of, filled_of};

use crate::Step;
use expression::read_credential;
use numbers::{COMMAND, CREDENTIAL_BYTES, OPERAND};
use rt0::Pool;

// A credential; a cut command is refused before its operands are looked at.
#[tactic(auto, unfolding(crate::specs::Credentials::credential_step))]
fn credential_step(s: &[u8], at: usize) -> Result<Step, u64>
    requires { at < length s.now }
    ensures { result ≡ credential_step s.now at }
{
    if s.len() - at < CREDENTIAL_BYTES {
        return Err(COMMAND);
    }
    let c = read_credential(s, at + 1).ok_or(OPERAND)?;
    Ok(Step::Taken(c))
}

// The end stands last and only there.
#[tactic(auto, unfolding(crate::specs::Credentials::end_step))]
fn end_step(s: &[u8], at: usize) -> Result<Step, u64>
    requires { at < length s.now }
    ensures { result ≡ end_step s.now at }
{
    if at + 1 != s.len() {
        return Err(COMMAND);
    }
    Ok(Step::End)
}

// The command at an index of the list.
#[tactic(auto, unfolding(crate::specs::Credentials::step_at))]
fn step(s: &[u8], at: usize) -> Result<Step, u64>
    requires { at < length s.now }
    ensures { result ≡ step_at s.now at }
{
    match s[at] {
        1 => credential_step(s, at),
        6 => end_step(s, at),
        _ => Err(COMMAND),
    }
}

// The commands are read left to right into an empty pool, and the first that cannot be taken ends the reading.
pub fn fill(s: &[u8], pool: &mut Pool) -> Result<(), u64>
    requires { (length s.now ≤ MOST-CREDENTIALS-BYTES) × (credentials pool.old ≡ []) }
    ensures listed { filled_of result pool.new ≡ credentials_of s.now }
    ensures few { OnOk result (pool.new.count ≤ MOST-CREDENTIALS) }
{
    let mut at = 0;
    while at < s.len() {
        match step(s, at)? {
            Step::Taken(c) => {
                pool.push(c);
                at += CREDENTIAL_BYTES;
            }
            Step::End => return Ok(()),
        }
    }
    Err(COMMAND)
}

// The pool of a list.
pub fn list(s: &[u8]) -> Result<Pool, u64>
    requires { length s.now ≤ MOST-CREDENTIALS-BYTES }
    ensures listed { listed_of result ≡ credentials_of s.now }
    ensures few { IfOk result (λ pool. pool.count ≤ MOST-CREDENTIALS) }
{
    let mut pool = Pool::empty();
    fill(s, &mut pool)?;
    Ok(pool)
}
