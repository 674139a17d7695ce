// Rules whose bits are all in the first word of a row.
ghost use Rattle.std.specs.Prelude.{◌≡◌, ◌<◌, ℕ, Bool, List};
ghost use Rattle.closure.specs.laws.Rules.{Under, Fits, Grown};
ghost use Rattle.closure.specs.laws.Words.{FilledOf, HeldOf, RestsOf, StillOf};

use crate::Rules;
use crate::rounds::{held, meet};
use crate::word_worklist::{filled, gathered};

// Rule i, which names no rows: whether its row grew by what its parts share.
pub fn meets(rules: &Rules, on: &[u8; 128], i: usize, rows: &mut [u64; 260]) -> bool
    requires { (i < 128) × Under 130 rules.now.head × Under 130 rules.now.part }
    ensures { (M : List ℕ) (own : Bool) → 0 < rules.now.words → Grown rules.now on.now own M rows.old rows.new }
{
    if rules.count <= i || on[i] != 1 {
        return false;
    }
    let at = rules.head[i] * 2;
    let old = rows[at];
    let w = old | meet(rules, rows, i, 0);
    rows[at] = w;
    w != old
}

// Whether rule i, where it is on, gives its row nothing new. The rows in the set hold bits, and no row holds more than lo.
fn rests(
    rules: &Rules,
    on: &[u8; 128],
    mem: &[u64; 260],
    own: bool,
    set: u64,
    lo: u64,
    i: usize,
    rows: &[u64; 260],
) -> bool
    requires { (i < 128) × Under 130 rules.now.head × Under 130 rules.now.part × Under 130 rules.now.first × Under 128 rules.now.src
        × FilledOf 64 rows.now set × HeldOf 0 130 rows.now lo }
    ensures { rules.now.words ≡ 1 → RestsOf rules.now on.now own mem.now i rows.now result }
{
    if on[i] != 1 {
        return true;
    }
    let old = rows[rules.head[i] * 2];
    if old == lo {
        return true;
    }
    if rules.named[i * 2 + 1] != 0 {
        return false;
    }
    let m = meet(rules, rows, i, 0);
    let k = gathered(
        rules,
        rules.named[i * 2] & set,
        rules.first[i],
        rows,
        mem,
        own,
    );
    m | k | old == old
}

// Whether no rule gives its row anything new.
pub fn still(rules: &Rules, on: &[u8; 128], mem: &[u64; 260], own: bool, rows: &[u64; 260]) -> bool
    requires { Fits rules.now }
    ensures { StillOf rules.now on.now own mem.now rows.now result }
{
    if rules.words != 1 {
        return false;
    }
    let lo = held(0, rows);
    let set = filled(rows);
    for i in 0..rules.count {
        if !rests(rules, on, mem, own, set, lo, i, rows) {
            return false;
        }
    }
    true
}
