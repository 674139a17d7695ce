// Whether an expression is from e, by its form and rows that answer: bit z of a role's row says whether the role is.
ghost use Rattle.std.specs.Prelude.{◌≡◌, ℕ, ◌<◌, ◌≤◌, List};
ghost use Rattle.rt0.specs.Decide.{from? as from_of};
ghost use Rattle.rt0.specs.laws.Pool.{pool_of};
ghost use Rattle.word.specs.laws.Search.{any_to};
ghost use Rattle.rules.specs.laws.Table.{chosen};
ghost use Rattle.rules.specs.laws.Digits.{BodiesIn};
ghost use Rattle.relation.specs.laws.Relation.{Relation, Answers};
ghost use Rattle.relation.specs.laws.Question.{leads_at};

use crate::start::once;
use closure::bit;
use expression::{Expression, Parts, Role, same};
use rt0::Pool;
use rules::{find_source, fourth_of, note_bodies, row, third_of};

// Whether the role p is from e, whatever the bodies and whatever credentials are on.
fn role_from(pool: &Pool, vals: &[u64; 260], z: usize, e: Expression, p: Role) -> bool
    requires { (pool.now.count ≤ 128) × (z < 128) }
    ensures { (K N on : List ℕ) → Answers (pool_of pool.now.count pool.now.heads K N) on e z vals.now
        → result ≡ from_of (chosen (pool_of pool.now.count pool.now.heads K N) on) (Expression.Role p) e }
{
    let r = row(pool, p);
    if r >= 128 {
        return same(Expression::Role(p), e);
    }
    bit(vals, r, z)
}

// Whether the intersection of p is from e, likewise.
fn meet_from(pool: &Pool, vals: &[u64; 260], z: usize, e: Expression, p: Parts) -> bool
    requires { (pool.now.count ≤ 128) × (z < 128) }
    ensures { (K N on : List ℕ) → Answers (pool_of pool.now.count pool.now.heads K N) on e z vals.now
        → result ≡ from_of (chosen (pool_of pool.now.count pool.now.heads K N) on) (Expression.Intersection p) e }
{
    if same(Expression::Intersection(p), e) {
        return true;
    }
    if !role_from(pool, vals, z, e, p.first) {
        return false;
    }
    if !role_from(pool, vals, z, e, p.second) {
        return false;
    }
    let c = third_of(p);
    if !role_from(pool, vals, z, e, c) {
        return false;
    }
    let d = fourth_of(p);
    role_from(pool, vals, z, e, d)
}

// Whether head j is B.m, from e, with B in row r of the relation.
fn leads(
    pool: &Pool,
    body: &[u64; 260],
    mem: &[u64; 260],
    vals: &[u64; 260],
    z: usize,
    r: usize,
    m: u16,
    j: usize,
) -> bool
    requires { (pool.now.count ≤ 128) × (z < 128) × (r < 130) × (j < 128)
        × BodiesIn pool.now.kinds pool.now.numbers pool.now.count body.now }
    ensures { result ≡ leads_at pool.now mem.now vals.now z r m j }
{
    if pool.heads[j * 2 + 1] != m {
        return false;
    }
    if !bit(vals, j, z) {
        return false;
    }
    let s = find_source(pool, body, pool.heads[j * 2]);
    if s >= 128 {
        return false;
    }
    bit(mem, r, s)
}

// Whether some head does.
fn leads_on(pool: &Pool, mem: &[u64; 260], vals: &[u64; 260], z: usize, r: usize, m: u16) -> bool
    requires { (pool.now.count ≤ 128) × (z < 128) × (r < 130) }
    ensures { result ≡ any_to pool.now.count (leads_at pool.now mem.now vals.now z r m) }
{
    let mut body = [0u64; 260];
    note_bodies(pool, &mut body);
    for j in 0..pool.count {
        if leads(pool, &body, mem, vals, z, r, m, j) {
            return true;
        }
    }
    false
}

// Whether the link a.m is from e, whatever credentials are on.
fn link_from(
    pool: &Pool,
    mem: &[u64; 260],
    vals: &[u64; 260],
    z: usize,
    e: Expression,
    a: Role,
    m: u16,
) -> bool
    requires { (pool.now.count ≤ 128) × (z < 128) }
    ensures { (on : List ℕ) → Relation pool.now on mem.now → Answers pool.now on e z vals.now
        → result ≡ from_of (chosen pool.now on) (Expression.Linked a m) e }
{
    let r = row(pool, a);
    if once(pool, mem, e, Expression::Linked(a, m), r) {
        return true;
    }
    leads_on(pool, mem, vals, z, r, m)
}

// Whether f is from e, whatever credentials are on.
pub fn by_form(
    pool: &Pool,
    mem: &[u64; 260],
    vals: &[u64; 260],
    z: usize,
    f: Expression,
    e: Expression,
) -> bool
    requires { (pool.now.count ≤ 128) × (z < 128) }
    ensures { (on : List ℕ) → Relation pool.now on mem.now → Answers pool.now on e z vals.now
        → result ≡ from_of (chosen pool.now on) f e }
{
    match f {
        Expression::Role(p) => role_from(pool, vals, z, e, p),
        Expression::Linked(a, m) => link_from(pool, mem, vals, z, e, a, m),
        Expression::Intersection(p) => meet_from(pool, vals, z, e, p),
        _ => same(f, e),
    }
}
