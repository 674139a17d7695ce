// Tables that find the credentials with a given number, without a search.
//
// A number x has the digits x % 64, x / 64 % 32 and x / 2048 % 32. Each digit has a row in a table, with the credentials whose number has that
// digit there. What the rows of all three digits share are the credentials with the number itself. The look-ups rely on less: they test what
// they find.
ghost use Rattle.std.specs.Prelude.{◌≡◌, ◌<◌, ◌≤◌};
ghost use Rattle.rules.specs.laws.Table.{row_of, bit_of};
ghost use Rattle.rules.specs.laws.Digits.{shared, Noted, NoneBelow, HeadsIn, BodiesIn, Open};

use crate::rows::{is_body, is_head, row, source};
use closure::mark;
use expression::Role;
use rt0::Pool;
use word::lowest;

// The tables of the entities and of the names of the heads.
#[derive(Clone, Copy)]
pub struct HeadTables {
    pub entity: [u64; 260],
    pub name: [u64; 260],
}

impl HeadTables {
    // Tables of no head take in the heads of a pool.
    pub fn note_heads(&mut self, pool: &Pool)
        requires { pool.now.count ≤ 128 }
        ensures { HeadsIn pool.now.heads pool.now.count self.new.entity self.new.name }
    {
        for j in 0..pool.count {
            note(&mut self.entity, pool.heads[j * 2], j);
            note(&mut self.name, pool.heads[j * 2 + 1], j);
        }
    }

    // The row of the role p.
    pub fn row(&self, pool: &Pool, p: Role) -> usize
        requires { (pool.now.count ≤ 128) × HeadsIn pool.now.heads pool.now.count self.now.entity self.now.name }
        ensures { result ≡ row_of pool.now p }
    {
        let lo = alike(&self.entity, p.entity, 0) & alike(&self.name, p.name, 0);
        let hi = alike(&self.entity, p.entity, 1) & alike(&self.name, p.name, 1);
        let j = least_of(lo, hi);
        if pool.count <= j {
            return 128;
        }
        if is_head(pool, p, j) {
            return j;
        }
        row(pool, p)
    }
}

// The table takes in that credential j has the number x.
fn note(table: &mut [u64; 260], x: u16, j: usize)
    requires { j < 128 }
    ensures { Noted x j table.old table.new }
{
    let d = x as usize;
    mark(table, d % 64, j);
    mark(table, 64 + d / 64 % 32, j);
    mark(table, 96 + d / 2048 % 32, j);
}

// The credentials from 64 h on that have the number x.
fn alike(table: &[u64; 260], x: u16, h: usize) -> u64
    requires { h < 2 }
    ensures { result ≡ shared table.now x h }
{
    let d = x as usize;
    table[d % 64 * 2 + h] & table[(64 + d / 64 % 32) * 2 + h] & table[(96 + d / 2048 % 32) * 2 + h]
}

// The least number of a set of two words, or 128.
fn least_of(lo: u64, hi: u64) -> usize
    ensures { NoneBelow lo hi result }
{
    if lo != 0 {
        return lowest(lo);
    }
    if hi != 0 {
        return 64 + lowest(hi);
    }
    128
}

// The table of the entities that are bodies.
pub fn note_bodies(pool: &Pool, body: &mut [u64; 260])
    requires { pool.now.count ≤ 128 }
    ensures { BodiesIn pool.now.kinds pool.now.numbers pool.now.count body.new }
{
    for j in 0..pool.count {
        if pool.kinds[j * 2] == 1 {
            note(body, pool.numbers[j * 8], j);
        }
    }
}

// The bit of the entity b, by the table of the bodies.
pub fn find_source(pool: &Pool, body: &[u64; 260], b: u16) -> usize
    requires { (pool.now.count ≤ 128) × BodiesIn pool.now.kinds pool.now.numbers pool.now.count body.now }
    ensures { result ≡ bit_of pool.now b }
{
    let lo = alike(body, b, 0);
    let hi = alike(body, b, 1);
    let s = least_of(lo, hi);
    if pool.count <= s {
        return 128;
    }
    if is_body(pool, b, s) {
        return s;
    }
    source(pool, b)
}

// A table that rules nothing out, for a few look-ups.
pub fn open_table() -> [u64; 260]
    ensures { Open result }
{
    [18446744073709551615u64; 260]
}
