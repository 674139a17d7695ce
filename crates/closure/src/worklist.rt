// Which rules and rows to look at first.
ghost use Rattle.std.specs.Prelude.{◌≡◌, ◌<◌, ◌≤◌, ◌+◌, IfSome, length};
ghost use Rattle.closure.specs.laws.Rules.{Under};

use crate::{Rules, mark};
use word::{lowest, one, others};

// Rules or rows to look at: those below 64, and those from 64 on.
#[derive(Clone, Copy)]
pub struct Dirty {
    pub lo: u64,
    pub hi: u64,
}

impl Dirty {
    pub fn none() -> Self {
        Dirty { lo: 0, hi: 0 }
    }

    // The numbers whose bits row r holds.
    pub fn row(rows: &[u64; 260], r: usize) -> Self
        requires { r < 130 }
    {
        Dirty {
            lo: rows[r * 2],
            hi: rows[r * 2 + 1],
        }
    }

    pub fn is_empty(self) -> bool {
        self.lo | self.hi == 0
    }

    // The least number, which is taken out.
    pub fn pop(&mut self) -> Option<usize>
        ensures { IfSome result (λ i. (i < 128) × (self.new.lo + self.new.hi < self.old.lo + self.old.hi)) }
    {
        if self.lo != 0 {
            let i = lowest(self.lo);
            self.lo = others(self.lo);
            return Some(i);
        }
        if self.hi != 0 {
            let i = lowest(self.hi);
            self.hi = others(self.hi);
            return Some(64 + i);
        }
        None
    }

    // The set with the number r, where r is below 128.
    pub fn with(self, r: usize) -> Self {
        if r < 64 {
            return Dirty {
                lo: self.lo | one(r),
                hi: self.hi,
            };
        }
        if r < 128 {
            return Dirty {
                lo: self.lo,
                hi: self.hi | one(r - 64),
            };
        }
        self
    }

    // The numbers of either set.
    pub fn join(self, other: Dirty) -> Self {
        Dirty {
            lo: self.lo | other.lo,
            hi: self.hi | other.hi,
        }
    }

    // The numbers of both sets.
    pub fn meet(self, other: Dirty) -> Self {
        Dirty {
            lo: self.lo & other.lo,
            hi: self.hi & other.hi,
        }
    }

    // The numbers of one set alone.
    pub fn differ(self, other: Dirty) -> Self {
        Dirty {
            lo: self.lo ^ other.lo,
            hi: self.hi ^ other.hi,
        }
    }
}

// Rule i reads the rows base + j, for each j in the word `named`; where there are few rules, it is only noted that it names rows.
fn read_word(named: u64, base: usize, i: usize, few: bool, rows: &mut [u64; 260])
    requires { (base ≤ 64) × (i < 128) }
    ensures { length rows.new ≡ 260 }
{
    if named == 0 {
        return;
    }
    mark(rows, 129, i);
    if few {
        return;
    }
    let mut m = named;
    while m != 0 {
        mark(rows, base + lowest(m), i);
        m = others(m);
    }
}

// The rows that rule i reads.
fn read_rule(rules: &Rules, i: usize, rows: &mut [u64; 260])
    requires { Under 130 rules.now.part × Under 130 rules.now.first × (i < 128) }
    ensures { length rows.new ≡ 260 }
{
    let few = rules.count <= 64;
    mark(rows, rules.first[i], i);
    read_word(rules.named[i * 2], 0, i, few, rows);
    read_word(rules.named[i * 2 + 1], 64, i, few, rows);
    for k in 0..4 {
        mark(rows, rules.part[i * 4 + k], i);
    }
}

// Which rules read each row: bit i of row r; row 129 has the rules that name rows. It only says where to look first: no promise depends on it.
pub fn dependents(rules: &Rules) -> [u64; 260]
    requires { (rules.now.count ≤ 128) × Under 130 rules.now.part × Under 130 rules.now.first }
{
    let mut d = [0u64; 260];
    for i in 0..rules.count {
        read_rule(rules, i, &mut d);
    }
    d
}

// The rules that read the rows that hold a bit.
pub fn readers_of_rows(deps: &[u64; 260], rows: &[u64; 260]) -> Dirty {
    let mut todo = Dirty::none();
    for r in 0..128 {
        if !Dirty::row(rows, r).is_empty() {
            todo = todo.join(Dirty::row(deps, r));
        }
    }
    todo
}

// The rules that read row r, and rule i.
pub fn readers_of_row(deps: &[u64; 260], r: usize, i: usize) -> Dirty
    requires { (r < 130) × (i < 128) }
{
    Dirty::row(deps, r).with(i)
}
