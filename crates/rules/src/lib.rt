// A pool of credentials as rules over rows of bits.
//
// A role's row is the index of the first credential with that head, or 128; an entity's bit is the index of the first credential with that
// body, or 128. Row 128 stays empty, and row 129 is that of a role asked about which no credential has as its head.
#![tactic(auto)]

ghost use Rattle.std.specs.Prelude.{◌≡◌, ◌<◌, ◌≤◌, ◌*◌};
ghost use Rattle.rules.specs.laws.Table.{row_of, third, fourth};
ghost use Rattle.rules.specs.laws.Columns.{four_rows, first_row, is_linked, Column, head_row, body_first, PartsTo};
ghost use Rattle.rules.specs.laws.Digits.{HeadsIn};
ghost use Rattle.rules.specs.laws.Ruled.{Ruled};

use closure::Rules;
use digits::HeadTables;
pub use digits::{find_source, note_bodies, open_table};
use expression::{Expression, Parts, Role};
pub use linking::linkable;
use linking::{has_link, has_links, names};
pub use rows::{row, source};
use rt0::Pool;

mod digits;
mod linking;
mod rows;

// The four rows whose shared bits a rule takes in.
#[derive(Clone, Copy)]
pub struct Four {
    pub a: usize,
    pub b: usize,
    pub c: usize,
    pub d: usize,
}

// The heads that links can go by (able is 1), and the bits of their entities.
#[derive(Clone, Copy)]
pub struct Links {
    pub src: [usize; 128],
    pub able: [u8; 128],
}

// The third role of an intersection, or the first where there is none.
pub fn third_of(p: Parts) -> Role
    ensures { result ≡ third p }
{
    if p.count == 2 {
        return p.first;
    }
    p.third
}

// The fourth role, or the first.
pub fn fourth_of(p: Parts) -> Role
    ensures { result ≡ fourth p }
{
    if p.count == 2 {
        return p.first;
    }
    if p.count == 3 {
        return p.first;
    }
    p.fourth
}

// The rows of an intersection's roles.
fn meet_rows(pool: &Pool, tables: &HeadTables, p: Parts) -> Four
    requires { (pool.now.count ≤ 128) × HeadsIn pool.now.heads pool.now.count tables.now.entity tables.now.name }
    ensures { result ≡ four_rows (row_of pool.now) (Expression.Intersection p) }
{
    let a = tables.row(pool, p.first);
    let b = tables.row(pool, p.second);
    if p.count == 2 {
        return Four { a, b, c: a, d: a };
    }
    let c = tables.row(pool, p.third);
    if p.count == 3 {
        return Four { a, b, c, d: a };
    }
    let d = tables.row(pool, p.fourth);
    Four { a, b, c, d }
}

// The rows of the rule of x.
fn rows_of(pool: &Pool, tables: &HeadTables, x: Expression) -> Four
    requires { (pool.now.count ≤ 128) × HeadsIn pool.now.heads pool.now.count tables.now.entity tables.now.name }
    ensures { result ≡ four_rows (row_of pool.now) x }
{
    match x {
        Expression::Role(p) => {
            let r = tables.row(pool, p);
            Four {
                a: r,
                b: r,
                c: r,
                d: r,
            }
        }
        Expression::Intersection(p) => meet_rows(pool, tables, p),
        _ => Four {
            a: 128,
            b: 128,
            c: 128,
            d: 128,
        },
    }
}

// The membership row of the rule of x: that of a in a link a.m.
fn first_of(pool: &Pool, tables: &HeadTables, x: Expression) -> usize
    requires { (pool.now.count ≤ 128) × HeadsIn pool.now.heads pool.now.count tables.now.entity tables.now.name }
    ensures { result ≡ first_row (row_of pool.now) x }
{
    match x {
        Expression::Linked(a, _) => tables.row(pool, a),
        _ => 128,
    }
}

// Whether x is a link.
pub fn is_linked(x: Expression) -> bool
    ensures { result ≡ is_linked x }
{
    matches!(x, Expression::Linked(_, _))
}

// The rows of the heads.
fn head_rows(pool: &Pool, tables: &HeadTables) -> [usize; 128]
    requires { (pool.now.count ≤ 128) × HeadsIn pool.now.heads pool.now.count tables.now.entity tables.now.name }
    ensures { Column (head_row pool.now) 128 130 pool.now.count result }
{
    let mut head = [128usize; 128];
    for i in 0..pool.count {
        head[i] = tables.row(pool, pool.head(i));
    }
    head
}

// The membership row of rule i.
fn first_at(pool: &Pool, tables: &HeadTables, i: usize) -> usize
    requires { (pool.now.count ≤ 128) × (i < 128) × HeadsIn pool.now.heads pool.now.count tables.now.entity tables.now.name }
    ensures { result ≡ body_first pool.now i }
{
    if !has_link(pool, i) {
        return 128;
    }
    first_of(pool, tables, pool.body(i))
}

// The membership rows of the rules.
fn first_rows(pool: &Pool, tables: &HeadTables) -> [usize; 128]
    requires { (pool.now.count ≤ 128) × HeadsIn pool.now.heads pool.now.count tables.now.entity tables.now.name }
    ensures { Column (body_first pool.now) 128 130 pool.now.count result }
{
    let mut first = [128usize; 128];
    for i in 0..pool.count {
        first[i] = first_at(pool, tables, i);
    }
    first
}

// The four rows of each rule.
fn part_rows(pool: &Pool, tables: &HeadTables) -> [usize; 512]
    requires { (pool.now.count ≤ 128) × HeadsIn pool.now.heads pool.now.count tables.now.entity tables.now.name }
    ensures { PartsTo (row_of pool.now) pool.now pool.now.count result }
{
    let mut part = [128usize; 512];
    for i in 0..pool.count {
        let r = rows_of(pool, tables, pool.body(i));
        let at = i * 4;
        part[at] = r.a;
        part[at + 1] = r.b;
        part[at + 2] = r.c;
        part[at + 3] = r.d;
    }
    part
}

// How many words of a row n bits take up.
fn words_for(n: usize) -> usize
    requires { n ≤ 128 }
    ensures { (n ≤ 64 * result) × (result ≤ 2) }
{
    if n <= 64 { 1 } else { 2 }
}

// The rules of a pool.
pub fn rules_of(pool: &Pool) -> Rules
    requires { pool.now.count ≤ 128 }
    ensures { Ruled pool.now result }
{
    let mut tables = HeadTables {
        entity: [0u64; 260],
        name: [0u64; 260],
    };
    tables.note_heads(pool);
    let head = head_rows(pool, &tables);
    let part = part_rows(pool, &tables);
    let first = first_rows(pool, &tables);
    let lit = has_links(pool);
    let links = linkable(pool, &head, lit);
    let named = names(pool, &links.able);
    let words = words_for(pool.count);
    Rules {
        count: pool.count,
        words,
        head,
        part,
        first,
        named,
        src: links.src,
    }
}
