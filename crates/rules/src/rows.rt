// The row of a role and the bit of an entity.
ghost use Rattle.std.specs.Prelude.{◌≡◌, ◌<◌, ◌≤◌};
ghost use Rattle.rules.specs.laws.Table.{is_head, row_of, is_body, bit_of};

use expression::{Role, key_of};
use rt0::Pool;

// Whether credential j has p as its head.
pub fn is_head(pool: &Pool, p: Role, j: usize) -> bool
    requires { j < 128 }
    ensures { result ≡ is_head pool.now p j }
{
    pool.has_head(key_of(p), j)
}

// The row of the role p.
pub fn row(pool: &Pool, p: Role) -> usize
    requires { pool.now.count ≤ 128 }
    ensures { result ≡ row_of pool.now p }
{
    let key = key_of(p);
    for j in 0..pool.count {
        if pool.has_head(key, j) {
            return j;
        }
    }
    128
}

// Whether credential s has the entity b as its body.
pub fn is_body(pool: &Pool, b: u16, s: usize) -> bool
    requires { s < 128 }
    ensures { result ≡ is_body pool.now b s }
{
    if pool.numbers[s * 8] != b {
        return false;
    }
    pool.kinds[s * 2] == 1
}

// The bit of the entity b.
pub fn source(pool: &Pool, b: u16) -> usize
    requires { pool.now.count ≤ 128 }
    ensures { result ≡ bit_of pool.now b }
{
    for s in 0..pool.count {
        if is_body(pool, b, s) {
            return s;
        }
    }
    128
}
