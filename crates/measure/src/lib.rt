// A question asked many times over one relation, to time the asking apart from the making of the relation.
#![tactic(auto)]

ghost use Rattle.std.specs.Prelude.{◌≡◌, ◌≤◌};
ghost use Rattle.rt0.specs.Decide.{from? as from_of};
ghost use Rattle.rt0.specs.laws.Pool.{credentials as credentials_of};
ghost use Rattle.rules.specs.laws.Table.{chosen};
ghost use Rattle.relation.specs.laws.Relation.{Relation};
ghost use Rattle.rules.specs.laws.Ruled.{Ruled};
ghost use Rattle.question.specs.Question.{yes_or_no, question_of};
ghost use Rattle.measure.specs.laws.Repeated.{count_of, repeated_of};
ghost use Rattle.numbers.specs.Answer.{answer_of};

use closure::{Rules, dependents};
use expression::Expression;
use numbers::{LENGTH, OPERAND};
use question::{list, operand, sized};
use relation::{ask, relation};
use rt0::Pool;
use rules::rules_of;

// How many of so many askings whether f is from e answer yes.
#[tactic(auto, unfolding(crate::specs::laws::Repeated::count_of))]
fn ask_times(
    pool: &Pool,
    rules: &Rules,
    deps: &[u64; 260],
    on: &[u8; 128],
    mem: &[u64; 260],
    f: Expression,
    e: Expression,
    times: u32,
) -> u64
    requires { (pool.now.count ≤ 128) × Ruled pool.now rules.now × Relation pool.now on.now mem.now }
    ensures { result ≡ count_of (from_of (chosen pool.now on.now) f e) times }
{
    let mut yes = 0;
    for _ in 0..times {
        if ask(pool, rules, deps, on, mem, f, e) {
            yes += 1;
        }
    }
    yes
}

// The same over the credentials of the pool.
fn from_times(pool: &Pool, f: Expression, e: Expression, times: u32) -> u64
    requires { pool.now.count ≤ 128 }
    ensures { result ≡ count_of (from_of (credentials_of pool.now) f e) times }
{
    let rules = rules_of(pool);
    let deps = dependents(&rules);
    let on = [1u8; 128];
    let mem = relation(pool, &rules, &deps, &on);
    ask_times(pool, &rules, &deps, &on, &mem, f, e, times)
}

// Makes the relation once and asks so many times: 256 times the number of yes, or the refusal number of the question.
#[tactic(auto, unfolding(question::specs::Question::sized, question::specs::Question::question_of, question::specs::laws::Credentials::listed_of, crate::specs::laws::Repeated::repeated_of, crate::specs::laws::Repeated::count_of))]
#[unsafe(no_mangle)]
pub extern "C" fn measure_questions(credentials: &[u8], f: &[u8], e: &[u8], times: u32) -> u64
    ensures { result ≡ repeated_of times (answer_of yes_or_no (question_of credentials.now f.now e.now)) }
{
    if !sized(credentials.len(), f.len(), e.len()) {
        return LENGTH;
    }
    let pool = match list(credentials) {
        Ok(pool) => pool,
        Err(refusal) => return refusal,
    };
    let Some(x) = operand(f) else {
        return OPERAND;
    };
    let Some(y) = operand(e) else {
        return OPERAND;
    };
    from_times(&pool, x, y, times) * 256
}
