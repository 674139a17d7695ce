// What linked bodies go by: the heads whose entity has a bit, and which of them each rule names.
ghost use Rattle.std.specs.Prelude.{◌≡◌, true, List, ℕ, ◌<◌, ◌≤◌, ◌+◌};
ghost use Rattle.rt0.specs.laws.Pool.{pool_of};
ghost use Rattle.word.specs.laws.Search.{any_to};
ghost use Rattle.rules.specs.laws.Columns.{Column, head_row, Able, NamedRow, NamedLink, NamesTo, is_named, has_link, link_source};
ghost use Rattle.rules.specs.laws.Columns.{SameLink, copied};
ghost use Rattle.rules.specs.laws.Digits.{BodiesIn};

use crate::Links;
use crate::digits::{find_source, note_bodies};
use closure::mark;
use expression::Expression;
use rt0::Pool;

// Whether body i is a link.
pub fn has_link(pool: &Pool, i: usize) -> bool
    requires { i < 128 }
    ensures { result ≡ has_link pool.now i }
{
    pool.kinds[i * 2] == 3
}

// Whether a credential has a linked body.
pub fn has_links(pool: &Pool) -> bool
    requires { pool.now.count ≤ 128 }
    ensures { result ≡ any_to pool.now.count (has_link pool.now) }
{
    for i in 0..pool.count {
        if has_link(pool, i) {
            return true;
        }
    }
    false
}

// The bit of the entity of head j, where j is the row of that head, else 128.
fn link_source(pool: &Pool, head: &[usize; 128], body: &[u64; 260], j: usize) -> usize
    requires { (pool.now.count ≤ 128) × (j < pool.now.count) × Column (head_row pool.now) 128 130 pool.now.count head.now
        × BodiesIn pool.now.kinds pool.now.numbers pool.now.count body.now }
    ensures { result ≡ link_source pool.now j }
{
    if head[j] != j {
        return 128;
    }
    find_source(pool, body, pool.heads[j * 2])
}

// The heads that links can go by. Without a linked expression there is no use for them.
pub fn linkable(pool: &Pool, head: &[usize; 128], lit: bool) -> Links
    requires { (pool.now.count ≤ 128) × Column (head_row pool.now) 128 130 pool.now.count head.now }
    ensures { Able pool.now lit pool.now.count result.src result.able }
{
    let mut src = [0usize; 128];
    let mut able = [0u8; 128];
    if !lit {
        return Links { src, able };
    }
    let mut body = [0u64; 260];
    note_bodies(pool, &mut body);
    for j in 0..pool.count {
        let s = link_source(pool, head, &body, j);
        if s < 128 {
            src[j] = s;
            able[j] = 1;
        }
    }
    Links { src, able }
}

// Whether links can go by head j, and its name is m.
fn is_named(pool: &Pool, able: &[u8; 128], m: u16, j: usize) -> bool
    requires { j < 128 }
    ensures { result ≡ is_named pool.now able.now m j }
{
    (able[j] == 1) & (pool.heads[j * 2 + 1] == m)
}

// Row i of the table takes in the heads with name m that links can go by, whatever the bodies.
fn name_row(pool: &Pool, able: &[u8; 128], i: usize, m: u16, named: &mut [u64; 260])
    requires { (pool.now.count ≤ 128) × (i < 128) }
    ensures { (K N : List ℕ) → NamedRow (pool_of pool.now.count pool.now.heads K N) able.now i m pool.now.count named.old named.new }
{
    for j in 0..pool.count {
        if is_named(pool, able, m, j) {
            mark(named, i, j);
        }
    }
}

// Row i of the table takes in what the link of x names, whatever the bodies.
fn name_link(pool: &Pool, able: &[u8; 128], i: usize, x: Expression, named: &mut [u64; 260])
    requires { (pool.now.count ≤ 128) × (i < 128) }
    ensures { (K N : List ℕ) → NamedLink (pool_of pool.now.count pool.now.heads K N) able.now i pool.now.count x named.old named.new }
{
    if let Expression::Linked(_, m) = x {
        name_row(pool, able, i, m, named);
    }
}

// Whether bodies k and i are links with one name, and k comes before i, a link.
fn same_link(pool: &Pool, k: usize, i: usize) -> bool
    requires { (k < 128) × (i < 128) }
    ensures { SameLink pool.now.kinds pool.now.numbers k i result }
{
    if i <= k {
        return false;
    }
    if !has_link(pool, k) {
        return false;
    }
    pool.numbers[k * 8 + 2] == pool.numbers[i * 8 + 2]
}

// Row i of the table becomes row k.
fn copy_row(k: usize, i: usize, named: &mut [u64; 260])
    requires { (k < 128) × (i < 128) }
    ensures { named.new ≡ copied named.old k i }
{
    let lo = named[k * 2];
    let hi = named[k * 2 + 1];
    named[i * 2] = lo;
    named[i * 2 + 1] = hi;
}

// Row i of the table takes in what the link of body i names: as row k, where that has the same name.
fn name_next(pool: &Pool, able: &[u8; 128], k: usize, i: usize, named: &mut [u64; 260])
    requires { (pool.now.count ≤ 128) × (i < pool.now.count) × (k < 128) × (has_link pool.now i ≡ true) × NamesTo pool.now able.now i named.old }
    ensures { NamesTo pool.now able.now (i + 1) named.new }
{
    if same_link(pool, k, i) {
        copy_row(k, i, named);
        return;
    }
    name_link(pool, able, i, pool.body(i), named);
}

// The heads that each rule names.
pub fn names(pool: &Pool, able: &[u8; 128]) -> [u64; 260]
    requires { pool.now.count ≤ 128 }
    ensures { NamesTo pool.now able.now pool.now.count result }
{
    let mut named = [0u64; 260];
    let mut k = 0;
    for i in 0..pool.count {
        if has_link(pool, i) {
            name_next(pool, able, k, i, &mut named);
            k = i;
        }
    }
    named
}
