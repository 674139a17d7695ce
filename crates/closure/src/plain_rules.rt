// A worklist for rules that name no rows.
ghost use Rattle.std.specs.Prelude.{◌<◌};
ghost use Rattle.closure.specs.laws.Rules.{Fits, Grown};

use crate::rounds::rule;
use crate::single::meets;
use crate::{Dirty, Rules};

// Rule i, which names no rows: whether its row grew.
fn plain(
    rules: &Rules,
    on: &[u8; 128],
    mem: &[u64; 260],
    own: bool,
    i: usize,
    rows: &mut [u64; 260],
) -> bool
    requires { (i < 128) × Fits rules.now }
    ensures { Grown rules.now on.now own mem.now rows.old rows.new }
{
    if rules.words == 1 {
        return meets(rules, on, i, rows);
    }
    rule(rules, on, mem, own, i, rows)
}

// Rules that name no rows are run, those of the set todo first, and then those that read a row that grew.
pub fn run_plain(
    rules: &Rules,
    on: &[u8; 128],
    mem: &[u64; 260],
    own: bool,
    deps: &[u64; 260],
    mut todo: Dirty,
    rows: &mut [u64; 260],
)
    requires { Fits rules.now }
    ensures { Grown rules.now on.now own mem.now rows.old rows.new }
{
    let mut fuel = 16384usize;
    while fuel > 0 {
        let Some(i) = todo.pop() else {
            return;
        };
        if plain(rules, on, mem, own, i, rows) {
            todo = todo.join(Dirty::row(deps, rules.head[i]));
        }
        fuel -= 1;
    }
}
