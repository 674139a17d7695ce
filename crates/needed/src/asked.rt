// The credentials of a pool that can matter for an expression: those with heads that it asks for, and those with heads that the body of one of
// them asks for. A role asks for itself; a linked role for its first role and for every role of its name; an intersection for its roles.
ghost use Rattle.std.specs.Prelude.{List, ℕ, ◌+◌, ◌<◌, ◌≤◌};
ghost use Rattle.expression.specs.declared.Expression.TheVariants as E;
ghost use Rattle.expression.specs.Same.{same_role};
ghost use Rattle.expression.specs.laws.Key.{KeyOf};
ghost use Rattle.rt0.specs.laws.Pool.{head_at};
ghost use Rattle.needed.specs.laws.Relevant.{asks, ClosedFor};
ghost use Rattle.needed.specs.laws.Flags.{is_named, Raised, Marked, Work, Followed, Swept};

use expression::{Expression, Parts, Role, key_of};
use rt0::Pool;

// 1 where the head of credential i has the name m, else the flag that was there.
fn flag_name(pool: &Pool, i: usize, m: u16, was: u8) -> u8
    requires { i < 128 }
    ensures { Raised (is_named m (head_at pool.now i)) was result }
{
    if pool.head(i).name == m { 1 } else { was }
}

// Flags credential i, if it has the head with this key.
fn flag_head(pool: &Pool, key: u32, i: usize, flags: &mut [u8; 128])
    requires { i < 128 }
    ensures { (p : Role) → KeyOf p key → (r : List ℕ)
        → Marked pool.now.heads (same_role p) i r flags.old → Marked pool.now.heads (same_role p) (i + 1) r flags.new }
{
    if pool.has_head(key, i) {
        flags[i] = 1;
    }
}

// Flags those with the head p, of the credentials from i up to end.
fn flag_from(pool: &Pool, p: Role, i: usize, end: usize, flags: &mut [u8; 128])
    requires { end ≤ 128 }
    ensures { (r : List ℕ) → Marked pool.now.heads (same_role p) i r flags.old
        → Marked pool.now.heads (same_role p) end r flags.new }
{
    let key = key_of(p);
    for k in i..end {
        flag_head(pool, key, k, flags);
    }
}

// Flags those with the head p, of the eight credentials from i on.
fn flag_eight(pool: &Pool, p: Role, i: usize, flags: &mut [u8; 128])
    requires { i ≤ 120 }
    ensures { (r : List ℕ) → Marked pool.now.heads (same_role p) i r flags.old
        → Marked pool.now.heads (same_role p) (i + 8) r flags.new }
{
    let key = key_of(p);
    if !pool.some_head(key, i) {
        return;
    }
    flag_from(pool, p, i, i + 8, flags)
}

// Flags the credentials with the head p: eight at a time, then the rest.
fn flag_role(pool: &Pool, p: Role, flags: &mut [u8; 128])
    requires { pool.now.count ≤ 128 }
    ensures { Marked pool.now.heads (same_role p) pool.now.count flags.old flags.new }
{
    let n = pool.count;
    let mut i = 0;
    while i + 8 <= n {
        flag_eight(pool, p, i, flags);
        i += 8;
    }
    flag_from(pool, p, i, n, flags)
}

// Flags the credentials whose heads have the name m.
fn flag_names(pool: &Pool, m: u16, flags: &mut [u8; 128])
    requires { pool.now.count ≤ 128 }
    ensures { Marked pool.now.heads (is_named m) pool.now.count flags.old flags.new }
{
    for i in 0..pool.count {
        flags[i] = flag_name(pool, i, m, flags[i]);
    }
}

// Flags the credentials that a linked role asks for.
fn flag_linked(pool: &Pool, a: Role, m: u16, flags: &mut [u8; 128])
    requires { pool.now.count ≤ 128 }
    ensures { Marked pool.now.heads (asks (E.Linked a m)) pool.now.count flags.old flags.new }
{
    flag_role(pool, a, flags);
    flag_names(pool, m, flags)
}

// Flags the credentials that an intersection asks for.
fn flag_parts(pool: &Pool, p: Parts, flags: &mut [u8; 128])
    requires { pool.now.count ≤ 128 }
    ensures { Marked pool.now.heads (asks (E.Intersection p)) pool.now.count flags.old flags.new }
{
    flag_role(pool, p.first, flags);
    flag_role(pool, p.second, flags);
    if p.count == 2 {
        return;
    }
    flag_role(pool, p.third, flags);
    if p.count == 3 {
        return;
    }
    flag_role(pool, p.fourth, flags)
}

// Flags the credentials that x asks for.
fn flag_asked(pool: &Pool, x: Expression, flags: &mut [u8; 128])
    requires { pool.now.count ≤ 128 }
    ensures { Marked pool.now.heads (asks x) pool.now.count flags.old flags.new }
{
    match x {
        Expression::Role(p) => flag_role(pool, p, flags),
        Expression::Linked(a, m) => flag_linked(pool, a, m, flags),
        Expression::Intersection(p) => flag_parts(pool, p, flags),
        Expression::Entity(_) | Expression::Goal(_) => {}
    }
}

// Follows credential j, if it is flagged and not done: what its body asks for is flagged. Whether it was followed.
fn follow(pool: &Pool, j: usize, flags: &mut [u8; 128], done: &mut [u8; 128]) -> bool
    requires { (pool.now.count ≤ 128) × (j < pool.now.count) × Work pool.now flags.old done.old }
    ensures { Followed pool.now j flags.old done.old flags.new done.new result }
{
    if flags[j] != 1 {
        return false;
    }
    if done[j] == 1 {
        return false;
    }
    done[j] = 1;
    flag_asked(pool, pool.body(j), flags);
    true
}

// Follows the credentials that are flagged and not done. Whether there were any.
fn pass(pool: &Pool, flags: &mut [u8; 128], done: &mut [u8; 128]) -> bool
    requires { (pool.now.count ≤ 128) × Work pool.now flags.old done.old }
    ensures { Swept pool.now flags.old flags.new done.new result pool.now.count }
{
    let mut some = false;
    for j in 0..pool.count {
        some |= follow(pool, j, flags, done);
    }
    some
}

// The credentials that can matter for f, 1 for each. Each pass but the last follows a credential, so that n + 1 passes are enough.
pub fn relevant(pool: &Pool, f: Expression) -> [u8; 128]
    requires { pool.now.count ≤ 128 }
    ensures { ClosedFor pool.now f result }
{
    let mut flags = [0u8; 128];
    let mut done = [0u8; 128];
    flag_asked(pool, f, &mut flags);
    for _ in 0..=pool.count {
        if !pass(pool, &mut flags, &mut done) {
            return flags;
        }
    }
    [1u8; 128]
}
