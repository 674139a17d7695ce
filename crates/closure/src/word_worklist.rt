// A worklist for rules whose rows and bits are all below 64. It makes no promise but soundness.
ghost use Rattle.std.specs.Prelude.{◌<◌, ◌≤◌};
ghost use Rattle.closure.specs.laws.Rules.{mem_rows, Under, Fits, Grown};
ghost use Rattle.closure.specs.laws.Words.{LinksOf, FilledOf};

use crate::Rules;
use crate::rounds::{links, membership, rule};
use word::{lowest, one, others, test};

// Which rows have each source: bit j at place s.
fn owners_of(rules: &Rules) -> [u64; 260]
    requires { (rules.now.count ≤ 64) × Under 128 rules.now.src }
{
    let mut owners = [0u64; 260];
    for j in 0..rules.count {
        owners[rules.src[j]] |= one(j);
    }
    owners
}

// The rows whose sources are in the set.
fn owned(owners: &[u64; 260], sources: u64) -> u64 {
    let mut w = 0u64;
    let mut m = sources;
    while m != 0 {
        w |= owners[lowest(m)];
        m = others(m);
    }
    w
}

// The rows whose sources are in the membership row f. What is known of it is kept: its bits at place f, the rows at f + 130.
fn known(f: usize, members: u64, owners: &[u64; 260], seen: &mut [u64; 260]) -> u64
    requires { f < 130 }
{
    let before = seen[f];
    let rows = seen[f + 130];
    if members == before {
        return rows;
    }
    let all = rows | owned(owners, members ^ before);
    seen[f] = members;
    seen[f + 130] = all;
    all
}

// Of the rows v, those that grew, and those that rule i has not been to.
fn fresh(v: u64, grew: u64, i: usize, done: &mut [u64; 260]) -> u64
    requires { i < 128 }
{
    let old = done[i];
    done[i] = old | v;
    (v & grew) | (v ^ (v & old))
}

// What the rows of the set hold whose sources are in the membership row f.
pub fn gathered(
    rules: &Rules,
    set: u64,
    f: usize,
    vals: &[u64; 260],
    mem: &[u64; 260],
    own: bool,
) -> u64
    requires { (f < 130) × Under 128 rules.now.src }
    ensures { LinksOf set 0 0 f rules.now.src vals.now (mem_rows own vals.now mem.now) result }
{
    links(set, 0, 0, f, &rules.src, vals, membership(own, vals, mem))
}

// Rule i along its links to the rows of the set: whether its row grew.
fn follow_links(
    rules: &Rules,
    on: &[u8; 128],
    mem: &[u64; 260],
    own: bool,
    i: usize,
    set: u64,
    rows: &mut [u64; 260],
) -> bool
    requires { (i < 128) × Under 130 rules.now.head × Under 130 rules.now.first × Under 128 rules.now.src }
    ensures { 0 < rules.now.words → Grown rules.now on.now own mem.now rows.old rows.new }
{
    if rules.count <= i || on[i] != 1 {
        return false;
    }
    let at = rules.head[i] * 2;
    let old = rows[at];
    let w = old
        | gathered(
            rules,
            set & rules.named[i * 2],
            rules.first[i],
            rows,
            mem,
            own,
        );
    rows[at] = w;
    w != old
}

// The rows that rule i has to look at. Where membership does not go by the rows, one bit is all that a row can take in.
fn ahead(
    rules: &Rules,
    mem: &[u64; 260],
    own: bool,
    owners: &[u64; 260],
    i: usize,
    grew: u64,
    rows: &[u64; 260],
    seen: &mut [u64; 260],
    done: &mut [u64; 260],
) -> u64
    requires { (i < 128) × Under 130 rules.now.head × Under 130 rules.now.first }
{
    if !own && rows[rules.head[i] * 2] != 0 {
        return 0;
    }
    let f = rules.first[i];
    let members = membership(own, rows, mem)[f * 2];
    let v = known(f, members, owners, seen) & rules.named[i * 2];
    fresh(v, grew, i, done)
}

// Rule i: where it names rows, along its links to those that grew and to those of new members. Whether its row grew.
fn step(
    rules: &Rules,
    on: &[u8; 128],
    mem: &[u64; 260],
    own: bool,
    owners: &[u64; 260],
    links: u64,
    i: usize,
    grew: u64,
    seen: &mut [u64; 260],
    done: &mut [u64; 260],
    rows: &mut [u64; 260],
) -> bool
    requires { (i < 64) × (0 < rules.now.words) × Fits rules.now }
    ensures { Grown rules.now on.now own mem.now rows.old rows.new }
{
    if !test(links, i) {
        return rule(rules, on, mem, own, i, rows);
    }
    let set = ahead(rules, mem, own, owners, i, grew, rows, seen, done);
    if set == 0 {
        return false;
    }
    follow_links(rules, on, mem, own, i, set, rows)
}

// The rows that a rule names.
fn all_named(rules: &Rules) -> u64
    requires { rules.now.count ≤ 64 }
{
    let mut w = 0u64;
    for i in 0..rules.count {
        w |= rules.named[i * 2];
    }
    w
}

// The rows that hold a bit.
pub fn filled(rows: &[u64; 260]) -> u64
    ensures { FilledOf 64 rows.now result }
{
    let mut w = 0u64;
    for r in 0..64 {
        if rows[r * 2] != 0 {
            w |= one(r);
        }
    }
    w
}

// The rules whose rows are read or named.
fn read_on(rules: &Rules, deps: &[u64; 260], named: u64) -> u64
    requires { (rules.now.count ≤ 64) × Under 130 rules.now.head }
{
    let mut w = 0u64;
    for i in 0..rules.count {
        let r = rules.head[i];
        if (deps[r * 2] != 0) | test(named, r % 64) {
            w |= one(i);
        }
    }
    w
}

// Rules to be run in this round and in the next, rows that grew in the round before, and rows that grew in this one.
#[derive(Clone, Copy)]
struct Round {
    now: u64,
    later: u64,
    rows: u64,
    grew: u64,
}

impl Round {
    // The first round, of the rules todo and of those that name rows, links.
    fn new(own: bool, todo: u64, links: u64, rows: &[u64; 260]) -> Self {
        if own {
            return Round {
                now: todo,
                later: 0,
                rows: 0,
                grew: 0,
            };
        }
        Round {
            now: todo | links,
            later: 0,
            rows: filled(rows),
            grew: 0,
        }
    }

    // The next round, where this one is over: of all rules that name rows, links, where a row that one of them names grew.
    fn turn(&mut self, named: u64, links: u64) {
        if self.now != 0 {
            return;
        }
        self.now = if self.grew & named == 0 {
            self.later
        } else {
            links
        };
        self.later = 0;
        self.rows = self.grew;
        self.grew = 0;
    }

    // The next rule: one of those that are read on goes first.
    fn next(&self, read: u64) -> usize
        requires { 0 < self.now.now }
        ensures { result < 64 }
    {
        let m = self.now & read;
        if m != 0 {
            return lowest(m);
        }
        lowest(self.now)
    }

    // Rule i made row r grow, which the rules of the set read; the rule itself is for the next round.
    fn touch(&mut self, i: usize, r: usize, readers: u64)
        requires { i < 64 }
    {
        let again = readers & one(i);
        self.now |= readers ^ again;
        self.later |= again;
        self.grew |= one(r % 64);
    }
}

// Rows grow by the rules of the set todo, and then by those that read a row that grew.
pub fn run_word(
    rules: &Rules,
    on: &[u8; 128],
    mem: &[u64; 260],
    own: bool,
    deps: &[u64; 260],
    todo: u64,
    rows: &mut [u64; 260],
)
    requires { (rules.now.count ≤ 64) × (0 < rules.now.words) × Fits rules.now }
    ensures { Grown rules.now on.now own mem.now rows.old rows.new }
{
    let owners = owners_of(rules);
    let named = all_named(rules);
    let links = deps[258];
    let read = read_on(rules, deps, named);
    let mut seen = [0u64; 260];
    // Which rows each rule has been to: none; where membership does not go by the rows, those that are empty do not count.
    let mut done = if own { [0u64; 260] } else { [u64::MAX; 260] };
    let mut round = Round::new(own, todo, links, rows);
    let mut fuel = 16384usize;
    while fuel > 0 {
        round.turn(named, links);
        if round.now == 0 {
            return;
        }
        let i = round.next(read);
        round.now ^= one(i);
        if step(
            rules, on, mem, own, &owners, links, i, round.rows, &mut seen, &mut done, rows,
        ) {
            let r = rules.head[i];
            round.touch(i, r, deps[r * 2]);
        }
        fuel -= 1;
    }
}
