// The credentials shown and, behind them, own ones; and what of such a pool can matter for an edge.
ghost use Rattle.std.specs.Prelude.{◌≡◌, ◌++◌, ℕ, ◌-◌, ◌≤◌, ◌<◌, eqb};
ghost use Rattle.rt0.specs.laws.Pool.{pool_of, credential_at, credentials};
ghost use Rattle.rules.specs.laws.Table.{chosen};
ghost use Rattle.sending.specs.laws.Behind.{StoredIf};
ghost use Rattle.sending.specs.laws.Relevant.{Selected, PartOf};
ghost use Rattle.numbers.specs.Sizes.{MOST-SHOWN, MOST-STORED};

use rt0::Pool;

// A pool, the first credentials of which are shown.
#[derive(Clone, Copy)]
pub struct Part {
    pub pool: Pool,
    pub shown: usize,
}

// Credential i, where it is flagged, goes behind the others.
fn push_flagged(pool: &Pool, flag: u8, i: usize, to: &mut Pool)
    requires { (i < 128) × (to.old.count < 128) }
    ensures { StoredIf (eqb flag 1) (credential_at pool.now i) to.old to.new }
{
    if flag == 1 {
        to.push(pool.credential(i));
    }
}

// The credentials shown and, behind them, those of a set that are flagged.
pub fn own_pool(shown: &Pool, set: &Pool, flags: &[u8; 128]) -> Pool
    requires { (shown.now.count ≤ MOST-SHOWN) × (set.now.count ≤ MOST-STORED) }
    ensures few { result.count ≤ 128 }
    ensures all { credentials result ≡ credentials shown.now ++ chosen set.now flags.now }
{
    let mut all = *shown;
    for i in 0..set.count {
        push_flagged(set, flags[i], i, &mut all);
    }
    all
}

// The flagged ones of the credentials from a to b go behind the others, however many more there are.
fn push_range(pool: &Pool, flags: &[u8; 128], a: usize, b: usize, to: &mut Pool)
    requires { (a ≤ b) × (b ≤ 128) × (to.old.count ≤ a) }
    ensures { (n : ℕ) → b ≤ n → Selected (pool_of n pool.now.heads pool.now.kinds pool.now.numbers) flags.now a (b - a)
        to.old to.new }
{
    for i in a..b {
        push_flagged(pool, flags[i], i, to);
    }
}

// The flagged ones of a pool, the first of which are shown.
pub fn part_of(pool: &Pool, shown: usize, flags: &[u8; 128]) -> Part
    requires { (pool.now.count ≤ 128) × (shown ≤ pool.now.count) }
    ensures { PartOf pool.now shown flags.now result.pool result.shown }
{
    let mut part = Pool::empty();
    push_range(pool, flags, 0, shown, &mut part);
    let first = part.count;
    push_range(pool, flags, shown, pool.count, &mut part);
    Part {
        pool: part,
        shown: first,
    }
}
