// What credentials say at once: that an entity is in a role.
ghost use Rattle.std.specs.Prelude.{◌≡◌, ℕ, ◌<◌, ◌≤◌, List};
ghost use Rattle.rt0.specs.laws.Pool.{pool_of};
ghost use Rattle.closure.specs.laws.Rules.{el, Under};
ghost use Rattle.rules.specs.laws.Columns.{Column, head_row_in};
ghost use Rattle.rules.specs.laws.Digits.{BodiesIn};
ghost use Rattle.relation.specs.laws.Relation.{Start};
ghost use Rattle.relation.specs.laws.Question.{Seeded};

use closure::mark;
use rt0::Pool;
use rules::{find_source, note_bodies};

// Where credential i says that an entity is in a role, the role's row takes in the entity's bit, whatever the heads whose rows are head.
pub fn seed(pool: &Pool, head: &[usize; 128], body: &[u64; 260], i: usize, rows: &mut [u64; 260])
    requires { (pool.now.count ≤ 128) × (i < pool.now.count) × Under 130 head.now
        × BodiesIn pool.now.kinds pool.now.numbers pool.now.count body.now }
    ensures { (H : List ℕ) → el head.now i ≡ head_row_in pool.now.count H i
        → Seeded (pool_of pool.now.count H pool.now.kinds pool.now.numbers) i rows.old rows.new }
{
    if pool.kinds[i * 2] != 1 {
        return;
    }
    let s = find_source(pool, body, pool.numbers[i * 8]);
    mark(rows, head[i], s);
}

// What the credentials that are on say at once, whatever the heads whose rows are head.
pub fn seeds(pool: &Pool, head: &[usize; 128], on: &[u8; 128]) -> [u64; 260]
    requires { (pool.now.count ≤ 128) × Under 130 head.now }
    ensures { (H : List ℕ) → Column (head_row_in pool.now.count H) 128 130 pool.now.count head.now
        → Start (pool_of pool.now.count H pool.now.kinds pool.now.numbers) on.now result }
{
    let mut rows = [0u64; 260];
    let mut body = [0u64; 260];
    note_bodies(pool, &mut body);
    for i in 0..pool.count {
        if on[i] == 1 {
            seed(pool, head, &body, i, &mut rows);
        }
    }
    rows
}
