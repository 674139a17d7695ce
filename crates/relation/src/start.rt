// What is from an expression e at once, and the rows that a question about e starts from.
ghost use Rattle.std.specs.Prelude.{◌≡◌, ℕ, ◌<◌, ◌≤◌, List, replicate};
ghost use Rattle.expression.specs.Form.{raw_of};
ghost use Rattle.rt0.specs.laws.Pool.{pool_of, body_at};
ghost use Rattle.closure.specs.laws.Rules.{el, Under};
ghost use Rattle.rules.specs.laws.Table.{row_in, bit_in, bit_of};
ghost use Rattle.rules.specs.laws.Columns.{Column, head_row, body_first, first_row};
ghost use Rattle.relation.specs.laws.Relation.{Relation, own_role, own_link, at_once, Asked};
ghost use Rattle.relation.specs.laws.Question.{own_bit, starts_at};

use crate::asked::own_row;
use closure::{Dirty, Rules, bit, mark};
use expression::{Expression, Raw, Role, raw_of, same};
use rt0::Pool;
use rules::source;

// Whether q is B.m, with B in the role whose row is r, whatever the heads.
fn own_role(pool: &Pool, rows: &[u64; 260], m: u16, q: Role, r: usize) -> bool
    requires { (pool.now.count ≤ 128) × (r < 130) }
    ensures { (H : List ℕ) (a : Role) → r ≡ row_in pool.now.count H a
        → result ≡ own_role (pool_of pool.now.count H pool.now.kinds pool.now.numbers) rows.now a m (Expression.Role q) }
{
    if q.name != m {
        return false;
    }
    let s = source(pool, q.entity);
    if s >= 128 {
        return false;
    }
    bit(rows, r, s)
}

// Whether e is B.m, with B in the role whose row is r, whatever the heads.
fn own(pool: &Pool, rows: &[u64; 260], m: u16, e: Expression, r: usize) -> bool
    requires { (pool.now.count ≤ 128) × (r < 130) }
    ensures { (H : List ℕ) (a : Role) → r ≡ row_in pool.now.count H a
        → result ≡ own_role (pool_of pool.now.count H pool.now.kinds pool.now.numbers) rows.now a m e }
{
    match e {
        Expression::Role(q) => own_role(pool, rows, m, q, r),
        _ => false,
    }
}

// Whether x is from e at once: it is e, or a link that leads to e. The membership row of x is r, whatever the heads.
pub fn once(pool: &Pool, rows: &[u64; 260], e: Expression, x: Expression, r: usize) -> bool
    requires { (pool.now.count ≤ 128) × (r < 130) }
    ensures { (H : List ℕ) → r ≡ first_row (row_in pool.now.count H) x
        → result ≡ at_once (pool_of pool.now.count H pool.now.kinds pool.now.numbers) rows.now e x }
{
    if same(x, e) {
        return true;
    }
    match x {
        Expression::Linked(_, m) => own(pool, rows, m, e, r),
        _ => false,
    }
}

// The bit of the entity of e where e is a role, or 128.
fn own_source(pool: &Pool, e: Expression) -> usize
    requires { pool.now.count ≤ 128 }
    ensures { result ≡ own_bit (bit_of pool.now) e }
{
    match e {
        Expression::Role(q) => source(pool, q.entity),
        _ => 128,
    }
}

// Whether body i is a link that leads to a role with name m, the bit of whose entity is s, whatever the heads.
fn leads_to(
    pool: &Pool,
    first: &[usize; 128],
    rows: &[u64; 260],
    m: u16,
    s: usize,
    i: usize,
) -> bool
    requires { (i < 128) × Under 130 first.now }
    ensures { (n : ℕ) (H : List ℕ) (e : Expression)
        → el first.now i ≡ body_first (pool_of n H pool.now.kinds pool.now.numbers) i → m ≡ (raw_of e).n1
        → s ≡ own_bit (bit_in n pool.now.kinds pool.now.numbers) e
        → result ≡ own_link (pool_of n H pool.now.kinds pool.now.numbers) rows.now e (body_at pool.now i) }
{
    if pool.kinds[i * 2] != 3 {
        return false;
    }
    if pool.numbers[i * 8 + 2] != m {
        return false;
    }
    if s >= 128 {
        return false;
    }
    bit(rows, first[i], s)
}

// Whether credential i is on and its body is from e at once, whose numbers are those of raw. The bit of the entity of e is s, whatever the heads.
fn starts(
    pool: &Pool,
    first: &[usize; 128],
    on: &[u8; 128],
    rows: &[u64; 260],
    raw: Raw,
    s: usize,
    i: usize,
) -> bool
    requires { (i < 128) × Under 130 first.now }
    ensures { (n : ℕ) (H : List ℕ) (e : Expression) → raw ≡ raw_of e
        → el first.now i ≡ body_first (pool_of n H pool.now.kinds pool.now.numbers) i
        → s ≡ own_bit (bit_in n pool.now.kinds pool.now.numbers) e
        → result ≡ starts_at (pool_of n H pool.now.kinds pool.now.numbers) on.now rows.now e i }
{
    if on[i] != 1 {
        return false;
    }
    if leads_to(pool, first, rows, raw.n1, s, i) {
        return true;
    }
    pool.is_body(raw, i)
}

// The rows that a question about e starts from, and the rules that read them.
pub fn asked(
    pool: &Pool,
    rules: &Rules,
    deps: &[u64; 260],
    on: &[u8; 128],
    mem: &[u64; 260],
    e: Expression,
    rows: &mut [u64; 260],
) -> Dirty
    requires { (pool.now.count ≤ 128) × Column (head_row pool.now) 128 130 pool.now.count rules.now.head
        × Column (body_first pool.now) 128 130 pool.now.count rules.now.first × Relation pool.now on.now mem.now
        × (rows.old ≡ replicate 260 0) }
    ensures { Asked pool.now on.now mem.now e rows.new }
{
    let raw = raw_of(e);
    let s = own_source(pool, e);
    let r = own_row(pool, e);
    mark(rows, r, 0);
    let mut todo = Dirty::row(deps, r);
    for i in 0..pool.count {
        if starts(pool, &rules.first, on, mem, raw, s, i) {
            let h = rules.head[i];
            mark(rows, h, 0);
            todo = todo.join(Dirty::row(deps, h));
        }
    }
    todo
}
