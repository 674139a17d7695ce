// The next own credential that is kept: the last one with which f from e holds once all own ones from it on are switched on.
ghost use Rattle.std.specs.Prelude.{◌≡◌, ◌+◌, ◌<◌, ◌≤◌, set};
ghost use Rattle.rules.specs.laws.Ruled.{Ruled};
ghost use Rattle.relation.specs.laws.Relation.{Relation};
ghost use Rattle.needed.specs.laws.Columns.{holds_from, LastNeeded};

use closure::Rules;
use expression::Expression;
use relation::{ask, switch_all, switch_on};
use rt0::Pool;

// The credentials that are on, and their relation.
#[derive(Clone, Copy)]
pub struct Switched {
    pub on: [u8; 128],
    pub rows: [u64; 260],
}

// The number tried next, from low on and before high: n first, with which none is switched on; then a and the one after it, as most credentials
// that can matter are needed; then the middle.
fn next_tried(n: usize, a: usize, low: usize, high: usize) -> usize
    requires { (n ≤ 128) × (a ≤ n) × (low < high) × (high ≤ n + 1) }
    ensures { (low ≤ result) × (result < high) }
{
    if high > n {
        return n;
    }
    if low <= a + 1 {
        return low;
    }
    low + (high - low) / 2
}

impl Switched {
    // Whether f from e holds with the credentials from k on switched on.
    fn holds_from(
        &self,
        pool: &Pool,
        rules: &Rules,
        deps: &[u64; 260],
        k: usize,
        f: Expression,
        e: Expression,
    ) -> bool
        requires { (pool.now.count ≤ 128) × (k ≤ pool.now.count) × Ruled pool.now rules.now
            × Relation pool.now self.now.on self.now.rows }
        ensures { result ≡ holds_from pool.now self.now.on f e k }
    {
        let mut all = *self;
        switch_all(pool, rules, deps, k, pool.count, &mut all.on, &mut all.rows);
        ask(pool, rules, deps, &all.on, &all.rows, f, e)
    }

    // The last number from a on with which f from e holds once all credentials from it on are switched on; n where it holds with none, 129 where
    // it does not with all. What holds with some holds with more, so that it is found by halves: it holds with those before low, and not with
    // those from high on.
    fn last_needed(
        &self,
        pool: &Pool,
        rules: &Rules,
        deps: &[u64; 260],
        a: usize,
        f: Expression,
        e: Expression,
    ) -> usize
        requires { (pool.now.count ≤ 128) × (a ≤ pool.now.count) × Ruled pool.now rules.now
            × Relation pool.now self.now.on self.now.rows }
        ensures { LastNeeded pool.now self.now.on f e a result }
    {
        let mut last = 129;
        let mut low = a;
        let mut high = pool.count + 1;
        while low < high {
            let k = next_tried(pool.count, a, low, high);
            if self.holds_from(pool, rules, deps, k, f, e) {
                last = k;
                low = k + 1;
            } else {
                high = k;
            }
        }
        last
    }

    // The same, and where it is a credential, that one is switched on.
    pub fn next_kept(
        &mut self,
        pool: &Pool,
        rules: &Rules,
        deps: &[u64; 260],
        a: usize,
        f: Expression,
        e: Expression,
    ) -> usize
        requires { (pool.now.count ≤ 128) × (a ≤ pool.now.count) × Ruled pool.now rules.now
            × Relation pool.now self.old.on self.old.rows }
        ensures last { LastNeeded pool.now self.old.on f e a result }
        ensures switched { result < pool.now.count → self.new.on ≡ set self.old.on result 1 }
        ensures related { result < pool.now.count → Relation pool.now self.new.on self.new.rows }
    {
        let k = self.last_needed(pool, rules, deps, a, f, e);
        if k >= pool.count {
            return k;
        }
        switch_on(pool, rules, deps, k, &mut self.on, &mut self.rows);
        k
    }
}
