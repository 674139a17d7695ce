// The least rows of bits that rules take in.
//
// Rule i adds to row head[i]: the bits that the rows part[4 i] to part[4 i + 3] share; and, for each j in named[i] whose bit src[j] is in the
// membership row first[i], the bits of row j. A row is two words of 64 bits. Rows 0 to 127 are those of the rules, two more are spare.
#![tactic(auto)]

ghost use Rattle.std.specs.Prelude.{◌≡◌, ◌<◌};
ghost use Rattle.closure.specs.laws.Rules.{bits, Fits, Grown, Closed, Marked};

pub use linked_rules::Work;
use linked_rules::run_linked;
use plain_rules::run_plain;
use rounds::pass;
use single::still;
use word::{one, test};
use word_worklist::run_word;
pub use worklist::{Dirty, dependents, readers_of_row, readers_of_rows};

mod linked_rules;
mod plain_rules;
mod rounds;
mod single;
mod word_worklist;
mod worklist;

#[derive(Clone, Copy)]
pub struct Rules {
    pub count: usize,
    // Words of a row in use: 1 where each bit is below 64, else 2.
    pub words: usize,
    pub head: [usize; 128],
    pub part: [usize; 512],
    pub first: [usize; 128],
    pub named: [u64; 260],
    pub src: [usize; 128],
}

// Bit s of row r.
pub fn bit(rows: &[u64; 260], r: usize, s: usize) -> bool
    requires { (r < 130) × (s < 128) }
    ensures { result ≡ bits rows.now r s }
{
    test(rows[r * 2 + s / 64], s % 64)
}

// Row r takes in bit s.
pub fn mark(rows: &mut [u64; 260], r: usize, s: usize)
    requires { (r < 130) × (s < 128) }
    ensures { Marked rows.old r s rows.new }
{
    let at = r * 2 + s / 64;
    rows[at] |= one(s % 64);
}

// Rows grow by the rules, most of the way. What is left out, a pass finds.
fn run_worklist(
    rules: &Rules,
    on: &[u8; 128],
    mem: &[u64; 260],
    own: bool,
    deps: &[u64; 260],
    todo: Dirty,
    rows: &mut [u64; 260],
)
    requires { Fits rules.now }
    ensures { Grown rules.now on.now own mem.now rows.old rows.new }
{
    if Dirty::row(deps, 129).is_empty() {
        run_plain(rules, on, mem, own, deps, todo, rows);
    } else if rules.count <= 64 && 0 < rules.words {
        run_word(rules, on, mem, own, deps, todo.lo, rows);
    } else {
        run_linked(rules, on, mem, own, deps, todo, rows);
    }
}

// The least rows from the given ones on, the rules todo looked at first.
pub fn close(
    rules: &Rules,
    on: &[u8; 128],
    mem: &[u64; 260],
    own: bool,
    deps: &[u64; 260],
    todo: Dirty,
    rows: &mut [u64; 260],
)
    requires { Fits rules.now }
    ensures { Closed rules.now on.now own mem.now rows.old rows.new }
{
    run_worklist(rules, on, mem, own, deps, todo, rows);
    if still(rules, on, mem, own, rows) {
        return;
    }
    let mut more = true;
    while more {
        let changed = pass(rules, on, mem, own, rows);
        more = changed > 0;
    }
}
