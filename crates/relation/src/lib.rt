// Which roles hold which entities over the credentials of a pool, and whether one expression is from another. The crate rules says what rows
// and bits stand for.
#![tactic(auto)]

ghost use Rattle.std.specs.Prelude.{◌≡◌, ℕ, ◌-◌, ◌<◌, ◌≤◌, List, set};
ghost use Rattle.rt0.specs.Decide.{from? as from_of};
ghost use Rattle.rt0.specs.laws.Pool.{pool_of, credentials as credentials_of};
ghost use Rattle.closure.specs.laws.Rules.{Fits};
ghost use Rattle.rules.specs.laws.Table.{chosen};
ghost use Rattle.rules.specs.laws.Ruled.{Ruled};
ghost use Rattle.relation.specs.laws.Relation.{Relation, Answers, switched};

use closure::{Dirty, Rules, close, dependents, readers_of_row, readers_of_rows};
pub use columns::column;
use direct::{seed, seeds};
use expression::{Expression, same};
use forms::by_form;
use rt0::Pool;
use rules::{open_table, rules_of, source};

mod asked;
mod columns;
mod direct;
mod forms;
mod start;

// The relation of roles and entities over the credentials that are on, whatever the heads with these rules.
pub fn relation(pool: &Pool, rules: &Rules, deps: &[u64; 260], on: &[u8; 128]) -> [u64; 260]
    requires { (pool.now.count ≤ 128) × Fits rules.now }
    ensures { (H : List ℕ) → Ruled (pool_of pool.now.count H pool.now.kinds pool.now.numbers) rules.now
        → Relation (pool_of pool.now.count H pool.now.kinds pool.now.numbers) on.now result }
{
    let mut rows = seeds(pool, &rules.head, on);
    let none = [0u64; 260];
    let todo = readers_of_rows(deps, &rows);
    close(rules, on, &none, true, deps, todo, &mut rows);
    rows
}

// The relation with the credentials from low to high switched on, closed once, whatever the heads with these rules. Membership goes by the rows
// themselves, so that those lent for it are not looked at.
pub fn switch_all(
    pool: &Pool,
    rules: &Rules,
    deps: &[u64; 260],
    low: usize,
    high: usize,
    on: &mut [u8; 128],
    rows: &mut [u64; 260],
)
    requires { (pool.now.count ≤ 128) × (high ≤ pool.now.count) × Fits rules.now }
    ensures switched { on.new ≡ switched low (high - low) on.old }
    ensures related { (H : List ℕ) → Ruled (pool_of pool.now.count H pool.now.kinds pool.now.numbers) rules.now
        → Relation (pool_of pool.now.count H pool.now.kinds pool.now.numbers) on.old rows.old
        → Relation (pool_of pool.now.count H pool.now.kinds pool.now.numbers) on.new rows.new }
{
    if high <= low {
        return;
    }
    let open = open_table();
    let mut todo = Dirty::none();
    for i in low..high {
        todo = todo.join(readers_of_row(deps, rules.head[i], i));
        seed(pool, &rules.head, &open, i, rows);
        on[i] = 1;
    }
    close(rules, on, deps, true, deps, todo, rows);
}

// The relation with credential i switched on, likewise.
pub fn switch_on(
    pool: &Pool,
    rules: &Rules,
    deps: &[u64; 260],
    i: usize,
    on: &mut [u8; 128],
    rows: &mut [u64; 260],
)
    requires { (pool.now.count ≤ 128) × (i < pool.now.count) × Fits rules.now }
    ensures switched { on.new ≡ set on.old i 1 }
    ensures related { (H : List ℕ) → Ruled (pool_of pool.now.count H pool.now.kinds pool.now.numbers) rules.now
        → Relation (pool_of pool.now.count H pool.now.kinds pool.now.numbers) on.old rows.old
        → Relation (pool_of pool.now.count H pool.now.kinds pool.now.numbers) on.new rows.new }
{
    switch_all(pool, rules, deps, i, i + 1, on, rows);
}

// Whether f is from the entity b, whatever credentials are on.
fn by_entity(pool: &Pool, mem: &[u64; 260], f: Expression, b: u16) -> bool
    requires { pool.now.count ≤ 128 }
    ensures { (on : List ℕ) → Relation pool.now on mem.now
        → result ≡ from_of (chosen pool.now on) f (Expression.Entity b) }
{
    let e = Expression::Entity(b);
    let s = source(pool, b);
    if s >= 128 {
        return same(f, e);
    }
    by_form(pool, mem, mem, s, f, e)
}

// Whether f is from e, by the rows vals, which answer what is, whatever credentials are on.
pub fn in_column(
    pool: &Pool,
    mem: &[u64; 260],
    vals: &[u64; 260],
    f: Expression,
    e: Expression,
) -> bool
    requires { pool.now.count ≤ 128 }
    ensures { (on : List ℕ) → Relation pool.now on mem.now → Answers pool.now on e 0 vals.now
        → result ≡ from_of (chosen pool.now on) f e }
{
    by_form(pool, mem, vals, 0, f, e)
}

// Whether f is from e over the credentials that are on, whose relation is mem.
pub fn ask(
    pool: &Pool,
    rules: &Rules,
    deps: &[u64; 260],
    on: &[u8; 128],
    mem: &[u64; 260],
    f: Expression,
    e: Expression,
) -> bool
    requires { (pool.now.count ≤ 128) × ((words : ℕ) × Ruled pool.now (record rules.now { words = words }))
        × Relation pool.now on.now mem.now }
    ensures { result ≡ from_of (chosen pool.now on.now) f e }
{
    if let Expression::Entity(b) = e {
        return by_entity(pool, mem, f, b);
    }
    let vals = column(pool, rules, deps, on, mem, e);
    in_column(pool, mem, &vals, f, e)
}

// Whether f is from e over the credentials of the pool.
pub fn from(pool: &Pool, f: Expression, e: Expression) -> bool
    requires { pool.now.count ≤ 128 }
    ensures { result ≡ from_of (credentials_of pool.now) f e }
{
    let rules = rules_of(pool);
    let deps = dependents(&rules);
    let on = [1u8; 128];
    let mem = relation(pool, &rules, &deps, &on);
    ask(pool, &rules, &deps, &on, &mem, f, e)
}
