// Rows where an expression e is asked about: where e is a role that is no head, its row is 129.
ghost use Rattle.std.specs.Prelude.{false, ◌≡◌, ℕ, ◌<◌, ◌≤◌, List};
ghost use Rattle.rt0.specs.declared.Pool.{Pool};
ghost use Rattle.rt0.specs.laws.Pool.{pool_of, body_at};
ghost use Rattle.rules.specs.laws.Table.{row_of, row_in, row_for};
ghost use Rattle.rules.specs.laws.Columns.{four_rows, PartsTo};
ghost use Rattle.relation.specs.laws.Question.{OwnRow};

use expression::{Expression, Role, same};
use rt0::Pool;
use rules::{Four, fourth_of, row, third_of};

// Whether e is a role that is no head.
pub fn has_new_row(pool: &Pool, e: Expression) -> bool
    requires { pool.now.count ≤ 128 }
    ensures { result ≡ false → (p : Role) → Expression.Role p ≡ e → row_of pool.now p ≡ 128 → ⊥ }
{
    match e {
        Expression::Role(q) => row(pool, q) == 128,
        _ => false,
    }
}

// The row of p where e is asked about; old is its row, whatever the pool.
fn asked_row(e: Expression, p: Role, old: usize) -> usize
    ensures { (P : Pool) → old ≡ row_of P p → result ≡ row_for P e p }
{
    if old != 128 {
        return old;
    }
    if same(Expression::Role(p), e) {
        return 129;
    }
    128
}

// The rows of the rule of x where e is asked about; old are its rows, whatever the pool.
fn asked_rows(e: Expression, x: Expression, old: Four) -> Four
    ensures { (P : Pool) → old ≡ four_rows (row_of P) x → result ≡ four_rows (row_for P e) x }
{
    match x {
        Expression::Role(p) => {
            let r = asked_row(e, p, old.a);
            Four {
                a: r,
                b: r,
                c: r,
                d: r,
            }
        }
        Expression::Intersection(p) => {
            let a = asked_row(e, p.first, old.a);
            let b = asked_row(e, p.second, old.b);
            let c = asked_row(e, third_of(p), old.c);
            let d = asked_row(e, fourth_of(p), old.d);
            Four { a, b, c, d }
        }
        _ => old,
    }
}

// The rows of the rule of body i where e is asked about; old are its rows, whatever the heads. Only a role that is no head has another row.
fn asked_body(pool: &Pool, e: Expression, i: usize, old: Four) -> Four
    requires { i < 128 }
    ensures { (n : ℕ) (H : List ℕ) → old ≡ four_rows (row_in n H) (body_at pool.now i)
        → result ≡ four_rows (row_for (pool_of n H pool.now.kinds pool.now.numbers) e) (body_at pool.now i) }
{
    if (old.a != 128) & ((old.b != 128) & ((old.c != 128) & (old.d != 128))) {
        return old;
    }
    let kind = pool.kinds[i * 2];
    if kind == 1 {
        return old;
    }
    if kind == 3 {
        return old;
    }
    asked_rows(e, pool.body(i), old)
}

// The four rows of each rule where e is asked about; part are its rows, whatever the heads.
pub fn asked_parts(pool: &Pool, part: &[usize; 512], e: Expression) -> [usize; 512]
    requires { pool.now.count ≤ 128 }
    ensures { (H : List ℕ) → PartsTo (row_in pool.now.count H) (pool_of pool.now.count H pool.now.kinds pool.now.numbers) pool.now.count part.now
        → PartsTo (row_for (pool_of pool.now.count H pool.now.kinds pool.now.numbers) e)
        (pool_of pool.now.count H pool.now.kinds pool.now.numbers) pool.now.count result }
{
    let mut next = [128usize; 512];
    for i in 0..pool.count {
        let at = i * 4;
        let old = Four {
            a: part[at],
            b: part[at + 1],
            c: part[at + 2],
            d: part[at + 3],
        };
        let r = asked_body(pool, e, i, old);
        next[at] = r.a;
        next[at + 1] = r.b;
        next[at + 2] = r.c;
        next[at + 3] = r.d;
    }
    next
}

// The row of e itself, whatever the bodies.
pub fn own_row(pool: &Pool, e: Expression) -> usize
    requires { pool.now.count ≤ 128 }
    ensures { (K N : List ℕ) → OwnRow (pool_of pool.now.count pool.now.heads K N) e result }
{
    match e {
        Expression::Role(q) => asked_row(e, q, row(pool, q)),
        _ => 129,
    }
}
