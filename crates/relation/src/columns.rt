// The rows that answer what is from an expression e: bit 0 of a role's row says whether the role is.
ghost use Rattle.std.specs.Prelude.{◌≡◌, ℕ, ◌≤◌, List};
ghost use Rattle.rt0.specs.laws.Pool.{pool_of};
ghost use Rattle.rules.specs.laws.Table.{row_for};
ghost use Rattle.rules.specs.laws.Columns.{PartsTo};
ghost use Rattle.rules.specs.laws.Ruled.{Ruled};
ghost use Rattle.relation.specs.laws.Relation.{Relation, Answers};

use crate::asked::{asked_parts, has_new_row};
use crate::start::asked;
use closure::{Rules, bit, close, mark};
use expression::Expression;
use rt0::Pool;
use rules::source;

// The rows of the entity b: its bit of the relation, whatever the heads and whatever credentials are on.
fn entity_column(pool: &Pool, mem: &[u64; 260], b: u16) -> [u64; 260]
    requires { pool.now.count ≤ 128 }
    ensures { (H on : List ℕ) → Relation (pool_of pool.now.count H pool.now.kinds pool.now.numbers) on mem.now
        → Answers (pool_of pool.now.count H pool.now.kinds pool.now.numbers) on (Expression.Entity b) 0 result }
{
    let mut rows = [0u64; 260];
    let s = source(pool, b);
    if s >= 128 {
        return rows;
    }
    for r in 0..pool.count {
        if bit(mem, r, s) {
            mark(&mut rows, r, 0);
        }
    }
    rows
}

// The rows of e, by the rules from the rows that it starts. The parts are those of the rules where e is asked about.
fn rule_column(
    pool: &Pool,
    rules: &Rules,
    deps: &[u64; 260],
    on: &[u8; 128],
    mem: &[u64; 260],
    e: Expression,
) -> [u64; 260]
    requires { (pool.now.count ≤ 128) × (rules.now.words ≡ 1)
        × ((words : ℕ) × (plain : List ℕ) × Ruled pool.now (record rules.now { words = words; part = plain }))
        × PartsTo (row_for pool.now e) pool.now pool.now.count rules.now.part × Relation pool.now on.now mem.now }
    ensures { Answers pool.now on.now e 0 result }
{
    let mut vals = [0u64; 260];
    let todo = asked(pool, rules, deps, on, mem, e, &mut vals);
    close(rules, on, mem, false, deps, todo, &mut vals);
    vals
}

// The rows that answer what is from e over the credentials that are on, whose relation is mem. Bit 0 needs one word of a row, so the rules' number of
// words does not matter.
pub fn column(
    pool: &Pool,
    rules: &Rules,
    deps: &[u64; 260],
    on: &[u8; 128],
    mem: &[u64; 260],
    e: Expression,
) -> [u64; 260]
    requires { (pool.now.count ≤ 128) × ((words : ℕ) × Ruled pool.now (record rules.now { words = words }))
        × Relation pool.now on.now mem.now }
    ensures { Answers pool.now on.now e 0 result }
{
    if let Expression::Entity(b) = e {
        return entity_column(pool, mem, b);
    }
    if (rules.words != 1) | has_new_row(pool, e) {
        let aimed = Rules {
            words: 1,
            part: asked_parts(pool, &rules.part, e),
            ..*rules
        };
        return rule_column(pool, &aimed, deps, on, mem, e);
    }
    rule_column(pool, rules, deps, on, mem, e)
}
