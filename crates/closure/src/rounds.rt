// One rule, and all rules once.
ghost use Rattle.std.specs.Prelude.{◌≡◌, ◌+◌, ◌*◌, ◌<◌, ◌≤◌};
ghost use Rattle.closure.specs.laws.Rules.{el, bits, mem_rows, Under, Fits, Within};
ghost use Rattle.closure.specs.laws.Words.{LinksOf, meet_of, WordOf, TurnOf, RuleOf, PassOf, HeldOf, FullOf, level};

use crate::{Rules, bit};
use word::{join, lowest, others, with};

// The rows that membership goes by: the rows themselves where own is set, and else mem.
pub fn membership<'a>(own: bool, rows: &'a [u64; 260], mem: &'a [u64; 260]) -> &'a [u64; 260]
    ensures { result.now ≡ mem_rows own rows.now mem.now }
{
    if own { rows } else { mem }
}

// Word h of the rows base + j, for each j in the word `named` whose source is in the row `first` of mem.
pub fn links(
    named: u64,
    base: usize,
    h: usize,
    first: usize,
    src: &[usize; 128],
    vals: &[u64; 260],
    mem: &[u64; 260],
) -> u64
    requires { (base ≤ 64) × (h < 2) × (first < 130) × Under 128 src.now }
    ensures { LinksOf named base h first src.now vals.now mem.now result }
{
    let mut w = 0u64;
    let mut m = named;
    while m != 0 {
        let q = base + lowest(m);
        w = with(w, vals[q * 2 + h], bit(mem, first, src[q]));
        m = others(m);
    }
    w
}

// What the parts of rule i share of word h.
pub fn meet(rules: &Rules, vals: &[u64; 260], i: usize, h: usize) -> u64
    requires { (i < 128) × (h < 2) × Under 130 rules.now.part }
    ensures { result ≡ meet_of vals.now (el rules.now.part (i * 4)) (el rules.now.part (i * 4 + 1)) (el rules.now.part (i * 4 + 2))
        (el rules.now.part (i * 4 + 3)) h }
{
    let a = rules.part[i * 4];
    let b = rules.part[i * 4 + 1];
    let c = rules.part[i * 4 + 2];
    let d = rules.part[i * 4 + 3];
    vals[a * 2 + h] & vals[b * 2 + h] & vals[c * 2 + h] & vals[d * 2 + h]
}

// What rule i gives of word h.
fn word(rules: &Rules, vals: &[u64; 260], mem: &[u64; 260], i: usize, h: usize) -> u64
    requires { (i < 128) × (h < 2) × Under 130 rules.now.part × Under 130 rules.now.first × Under 128 rules.now.src }
    ensures { WordOf rules.now i h vals.now mem.now result }
{
    let w = meet(rules, vals, i, h);
    let f = rules.first[i];
    let lo = links(rules.named[i * 2], 0, h, f, &rules.src, vals, mem);
    let hi = links(rules.named[i * 2 + 1], 64, h, f, &rules.src, vals, mem);
    w | lo | hi
}

// Rule i, word h: whether its row grew.
fn turn(
    rules: &Rules,
    mem: &[u64; 260],
    own: bool,
    i: usize,
    h: usize,
    rows: &mut [u64; 260],
) -> bool
    requires { (i < 128) × (h < 2) × Under 130 rules.now.head × Under 130 rules.now.part × Under 130 rules.now.first
        × Under 128 rules.now.src }
    ensures { h < rules.now.words → TurnOf rules.now own mem.now i h rows.old rows.new result }
{
    let at = rules.head[i] * 2 + h;
    let old = rows[at];
    let w = join(old, word(rules, rows, membership(own, rows, mem), i, h));
    if w != old {
        rows[at] = w;
        return true;
    }
    false
}

// Rule i, where it is on, in each word in use: whether its row grew.
pub fn rule(
    rules: &Rules,
    on: &[u8; 128],
    mem: &[u64; 260],
    own: bool,
    i: usize,
    rows: &mut [u64; 260],
) -> bool
    requires { (i < 128) × Fits rules.now }
    ensures { RuleOf rules.now on.now own mem.now i rows.old rows.new result }
{
    if rules.count <= i || on[i] != 1 {
        return false;
    }
    let mut grew = false;
    for h in 0..rules.words {
        let t = turn(rules, mem, own, i, h, rows);
        grew |= t;
    }
    grew
}

// Word h of what the rows hold together.
pub fn held(h: usize, rows: &[u64; 260]) -> u64
    requires { h < 2 }
    ensures { HeldOf h 130 rows.now result }
{
    let mut w = 0u64;
    for r in 0..130 {
        w |= rows[r * 2 + h];
    }
    w
}

// Whether row r has the words lo and hi, of those in use.
fn is_full(words: usize, lo: u64, hi: u64, r: usize, rows: &[u64; 260]) -> bool
    requires { r < 130 }
    ensures { FullOf words lo hi r rows.now result }
{
    if rows[r * 2] != lo {
        return false;
    }
    if words <= 1 {
        return true;
    }
    rows[r * 2 + 1] == hi
}

// Rule i, as above; but where its row holds all that a row holds, lo and hi, there is nothing to be done.
fn rule_below(
    rules: &Rules,
    on: &[u8; 128],
    mem: &[u64; 260],
    own: bool,
    i: usize,
    lo: u64,
    hi: u64,
    rows: &mut [u64; 260],
) -> bool
    requires { (i < 128) × Fits rules.now × Within (bits rows.old) (level lo hi) }
    ensures { RuleOf rules.now on.now own mem.now i rows.old rows.new result }
{
    if is_full(rules.words, lo, hi, rules.head[i], rows) {
        return false;
    }
    rule(rules, on, mem, own, i, rows)
}

// Each rule that is on once: how many made their rows grow.
pub fn pass(
    rules: &Rules,
    on: &[u8; 128],
    mem: &[u64; 260],
    own: bool,
    rows: &mut [u64; 260],
) -> usize
    requires { Fits rules.now }
    ensures { PassOf rules.now on.now own mem.now rows.old rows.new result }
{
    let lo = held(0, rows);
    let hi = held(1, rows);
    let mut added = 0;
    for i in 0..rules.count {
        if rule_below(rules, on, mem, own, i, lo, hi, rows) {
            added += 1;
        }
    }
    added
}
