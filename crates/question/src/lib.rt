// RT0 questions on bytes.
#![tactic(auto)]

ghost use Rattle.std.specs.Prelude.{◌≡◌, ◌*◌, length};
ghost use Rattle.numbers.specs.Bytes.{EXPRESSION-BYTES};
ghost use Rattle.question.specs.Question.{sized as sized_of, operand_of, yes_or_no, question_of};
ghost use Rattle.question.specs.laws.Question.{decision_of};
ghost use Rattle.numbers.specs.Answer.{answer_of};

pub use credentials::{fill, list};
use expression::{Credential, Expression, is_body, read_expression};
use numbers::{EXPRESSION_BYTES, LENGTH, MOST_CREDENTIALS_BYTES, OPERAND};
use relation::from;
use rt0::Pool;

mod credentials;

// What stands next in a credential list: a credential, or the end.
#[derive(Clone, Copy)]
pub enum Step {
    Taken(Credential),
    End,
}

// Whether the credentials, f and e have lengths within the sizes.
#[tactic(auto, unfolding(crate::specs::Question::sized))]
pub fn sized(c: usize, f: usize, e: usize) -> bool
    ensures { result ≡ sized_of c f e }
{
    (0 < c) & (c <= MOST_CREDENTIALS_BYTES) & (f == EXPRESSION_BYTES) & (e == EXPRESSION_BYTES)
}

// 256 times the value: 1 for yes, 0 for no.
fn answer(yes: bool) -> u64
    ensures { result ≡ yes_or_no yes * 256 }
{
    if yes { 256 } else { 0 }
}

// An expression of kinds 1 to 4.
#[tactic(auto, unfolding(crate::specs::Question::operand_of))]
pub fn operand(s: &[u8]) -> Option<Expression>
    requires { length s.now ≡ EXPRESSION-BYTES }
    ensures { result ≡ operand_of s.now }
{
    let x = read_expression(s, 0)?;
    if is_body(x) { Some(x) } else { None }
}

// Whether "f from e" over the lent credentials, or a refusal number.
#[tactic(auto, unfolding(crate::specs::Question::sized, crate::specs::Question::question_of, crate::specs::laws::Credentials::listed_of, crate::specs::laws::Credentials::filled_of))]
fn decide(credentials: &[u8], f: &[u8], e: &[u8]) -> Result<bool, u64>
    ensures { decision_of result ≡ question_of credentials.now f.now e.now }
{
    if !sized(credentials.len(), f.len(), e.len()) {
        return Err(LENGTH);
    }
    let mut pool = Pool::empty();
    fill(credentials, &mut pool)?;
    let x = operand(f).ok_or(OPERAND)?;
    let y = operand(e).ok_or(OPERAND)?;
    Ok(from(&pool, x, y))
}

// Whether "f from e" over the lent credentials: 256 for yes, 0 for no, or a refusal number.
pub fn question(credentials: &[u8], f: &[u8], e: &[u8]) -> u64
    ensures { result ≡ answer_of yes_or_no (question_of credentials.now f.now e.now) }
{
    match decide(credentials, f, e) {
        Ok(yes) => answer(yes),
        Err(refusal) => refusal,
    }
}
