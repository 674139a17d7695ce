// The credentials that an edge needs, of those of a pool: the first ones are shown, the others are the own ones in table order. "Drop each,
// first to last, without which the edge is still justified" is done from the end: own credentials are added, the last first, until the edge
// is justified; the one that made it so is kept; then the same again with it, for those after it.
#![tactic(auto)]

ghost use Rattle.std.specs.Prelude.{◌≡◌, ℕ, ◌<◌, ◌≤◌, length};
ghost use Rattle.rt0.specs.Decide.{from? as from_of};
ghost use Rattle.rt0.specs.laws.Pool.{credentials};
ghost use Rattle.closure.specs.laws.Rules.{el};
ghost use Rattle.rules.specs.laws.Table.{chosen};
ghost use Rattle.rules.specs.laws.Ruled.{Ruled};
ghost use Rattle.relation.specs.laws.Relation.{Relation};
ghost use Rattle.needed.specs.Needed.{needed as needed_of};
ghost use Rattle.needed.specs.laws.Needed.{first_of, rest_of};
ghost use Rattle.needed.specs.laws.Columns.{FirstOn, WithRest, Needed};

pub use asked::relevant;
use closure::{Rules, dependents};
use expression::Expression;
use next::Switched;
use relation::relation;
use rt0::Pool;
use rules::rules_of;

mod asked;
mod next;

// Whether an edge holds over a pool, and the own credentials of the pool that it needs, 1 for each.
#[derive(Clone, Copy)]
pub struct Kept {
    pub holds: bool,
    pub own: [u8; 128],
}

// The column where the first s credentials are on.
fn first_on(s: usize) -> [u8; 128]
    requires { s ≤ 128 }
    ensures { FirstOn s result }
{
    let mut on = [0u8; 128];
    for i in 0..s {
        on[i] = 1;
    }
    on
}

// The column with the credentials from a to n.
pub fn with_rest(n: usize, a: usize, kept: [u8; 128]) -> [u8; 128]
    requires { (n ≤ 128) × (a ≤ n) × (length kept ≡ 128) }
    ensures { WithRest n a kept result }
{
    let mut r = kept;
    for i in a..n {
        r[i] = 1;
    }
    r
}

// The needed ones. The first s are on, and their relation is held.
fn keep(
    pool: &Pool,
    rules: &Rules,
    deps: &[u64; 260],
    s: usize,
    switched: &mut Switched,
    f: Expression,
    e: Expression,
) -> Kept
    requires { (pool.now.count ≤ 128) × (s ≤ pool.now.count) × Ruled pool.now rules.now × FirstOn s switched.old.on
        × Relation pool.now switched.old.on switched.old.rows }
    ensures { Needed pool.now s f e result.holds result.own }
{
    let n = pool.count;
    let mut r = [0u8; 128];
    let mut a = s;
    loop {
        let k = switched.next_kept(pool, rules, deps, a, f, e);
        if k > n {
            return Kept {
                holds: false,
                own: with_rest(n, a, r),
            };
        }
        if k == n {
            return Kept {
                holds: true,
                own: r,
            };
        }
        r[k] = 1;
        if k + 1 == n {
            return Kept {
                holds: true,
                own: r,
            };
        }
        a = k + 1;
    }
}

// Whether f from e holds over a pool, and those needed for it beside the first `shown`.
pub fn needed(pool: &Pool, shown: usize, f: Expression, e: Expression) -> Kept
    requires { (pool.now.count ≤ 128) × (shown ≤ pool.now.count) }
    ensures holds { result.holds ≡ from_of (credentials pool.now) f e }
    ensures own { (i : ℕ) → el result.own i ≡ 1 → (shown ≤ i) × (i < pool.now.count) }
    ensures all { chosen pool.now result.own ≡ needed_of (first_of pool.now shown) f e (rest_of pool.now shown) }
{
    let rules = rules_of(pool);
    let deps = dependents(&rules);
    let on = first_on(shown);
    let rows = relation(pool, &rules, &deps, &on);
    let mut switched = Switched { on, rows };
    keep(pool, &rules, &deps, shown, &mut switched, f, e)
}
