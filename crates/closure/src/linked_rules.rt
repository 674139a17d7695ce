// A worklist for rules that name rows.
ghost use Rattle.std.specs.Prelude.{◌<◌, ◌≤◌, ℕ};
ghost use Rattle.closure.specs.laws.Rules.{Under, Fits, Grown};
ghost use Rattle.closure.specs.laws.Words.{Poured};

use crate::rounds::{membership, rule};
use crate::{Dirty, Rules, bit, mark};
use word::one;

// Row r takes in row j, in word h: whether it grew.
fn add_word(j: usize, r: usize, h: usize, rows: &mut [u64; 260]) -> bool
    requires { (j < 130) × (r < 130) × (h < 2) }
    ensures { (w : ℕ) → h < w → Poured w j r rows.old rows.new }
{
    let at = r * 2 + h;
    let old = rows[at];
    let w = old | rows[j * 2 + h];
    rows[at] = w;
    w != old
}

// Row r takes in row j, in each word in use: whether it grew.
fn add_row(words: usize, j: usize, r: usize, rows: &mut [u64; 260]) -> bool
    requires { (words ≤ 2) × (j < 130) × (r < 130) }
    ensures { Poured words j r rows.old rows.new }
{
    if words == 0 {
        return false;
    }
    let a = add_word(j, r, 0, rows);
    if words == 1 {
        return a;
    }
    let b = add_word(j, r, 1, rows);
    a | b
}

// The row of rule i takes in row j, where the rule is on and names j, and the source of j is in its membership row: whether it grew.
fn link(
    rules: &Rules,
    on: &[u8; 128],
    mem: &[u64; 260],
    own: bool,
    i: usize,
    j: usize,
    rows: &mut [u64; 260],
) -> bool
    requires { (i < 128) × (j < 128) × (rules.now.words ≤ 2) × Under 130 rules.now.head × Under 130 rules.now.first
        × Under 128 rules.now.src }
    ensures { Grown rules.now on.now own mem.now rows.old rows.new }
{
    if rules.count <= i || on[i] != 1 {
        return false;
    }
    if !bit(&rules.named, i, j) || !bit(membership(own, rows, mem), rules.first[i], rules.src[j]) {
        return false;
    }
    add_row(rules.words, j, rules.head[i], rows)
}

// Rule i along its links to the rows of the set: whether its row grew.
fn follow(
    rules: &Rules,
    on: &[u8; 128],
    mem: &[u64; 260],
    own: bool,
    i: usize,
    set: Dirty,
    rows: &mut [u64; 260],
) -> bool
    requires { (i < 128) × (rules.now.words ≤ 2) × Under 130 rules.now.head × Under 130 rules.now.first × Under 128 rules.now.src }
    ensures { Grown rules.now on.now own mem.now rows.old rows.new }
{
    let mut todo = set.meet(Dirty::row(&rules.named, i));
    let mut grew = false;
    while let Some(j) = todo.pop() {
        let t = link(rules, on, mem, own, i, j, rows);
        grew |= t;
    }
    grew
}

// Which rows have each source: bit j of row s.
fn owners_of(rules: &Rules) -> [u64; 260]
    requires { (rules.now.count ≤ 128) × Under 128 rules.now.src }
{
    let mut owners = [0u64; 260];
    for j in 0..rules.count {
        mark(&mut owners, rules.src[j], j);
    }
    owners
}

// The rows whose sources are in the set.
fn owned(owners: &[u64; 260], mut sources: Dirty) -> Dirty {
    let mut rows = Dirty::none();
    while let Some(s) = sources.pop() {
        rows = rows.join(Dirty::row(owners, s));
    }
    rows
}

// The bits of row f that rule i has not seen yet, where membership goes by the rows.
fn fresh(own: bool, f: usize, i: usize, rows: &[u64; 260], seen: &mut [u64; 260]) -> Dirty
    requires { (f < 130) × (i < 128) }
{
    if !own {
        return Dirty::none();
    }
    let all = Dirty::row(rows, f);
    let old = Dirty::row(seen, i);
    seen[i * 2] = all.lo;
    seen[i * 2 + 1] = all.hi;
    all.differ(old)
}

// Rule i: where it names rows, along its links to the rows of the set, which grew, and to those of new members. Whether its row grew.
fn step(
    rules: &Rules,
    on: &[u8; 128],
    mem: &[u64; 260],
    own: bool,
    deps: &[u64; 260],
    owners: &[u64; 260],
    i: usize,
    grew: Dirty,
    seen: &mut [u64; 260],
    rows: &mut [u64; 260],
) -> bool
    requires { (i < 128) × Fits rules.now }
    ensures { Grown rules.now on.now own mem.now rows.old rows.new }
{
    if !bit(deps, 129, i) {
        return rule(rules, on, mem, own, i, rows);
    }
    let sources = fresh(own, rules.first[i], i, rows, seen);
    let set = grew.join(owned(owners, sources));
    follow(rules, on, mem, own, i, set, rows)
}

// The rows that hold a bit, where membership does not go by them.
fn filled(own: bool, rows: &[u64; 260]) -> Dirty {
    let mut set = Dirty::none();
    if own {
        return set;
    }
    for r in 0..64 {
        if !Dirty::row(rows, r).is_empty() {
            set.lo |= one(r);
        }
        if !Dirty::row(rows, r + 64).is_empty() {
            set.hi |= one(r);
        }
    }
    set
}

// Rules to be run in this round and in the next, rows that grew in the round before, and rows that grew in this one.
#[derive(Clone, Copy)]
pub struct Work {
    pub now: Dirty,
    pub later: Dirty,
    pub rows: Dirty,
    pub grew: Dirty,
}

impl Work {
    // The first round, of the rules todo.
    fn new(own: bool, todo: Dirty, rows: &[u64; 260]) -> Self {
        Work {
            now: todo,
            later: Dirty::none(),
            rows: filled(own, rows),
            grew: Dirty::none(),
        }
    }

    // The next round, where this one is over.
    fn turn(&mut self) {
        if !self.now.is_empty() {
            return;
        }
        self.now = self.later;
        self.later = Dirty::none();
        self.rows = self.grew;
        self.grew = Dirty::none();
    }

    // Row r grew, which these rules read: those that name rows, links, are for the next round.
    fn touch(&mut self, r: usize, readers: Dirty, links: Dirty) {
        let again = readers.meet(links);
        self.now = self.now.join(readers.differ(again));
        self.later = self.later.join(again);
        self.grew = self.grew.with(r);
    }
}

// As run_plain; but a rule that names rows goes only to those that grew and those of new members.
pub fn run_linked(
    rules: &Rules,
    on: &[u8; 128],
    mem: &[u64; 260],
    own: bool,
    deps: &[u64; 260],
    todo: Dirty,
    rows: &mut [u64; 260],
)
    requires { Fits rules.now }
    ensures { Grown rules.now on.now own mem.now rows.old rows.new }
{
    let owners = owners_of(rules);
    let mut seen = [0u64; 260];
    let mut work = Work::new(own, todo, rows);
    let mut fuel = 16384usize;
    while fuel > 0 {
        work.turn();
        let Some(i) = work.now.pop() else {
            return;
        };
        if step(
            rules, on, mem, own, deps, &owners, i, work.rows, &mut seen, rows,
        ) {
            let r = rules.head[i];
            work.touch(r, Dirty::row(deps, r), Dirty::row(deps, 129));
        }
        fuel -= 1;
    }
}
