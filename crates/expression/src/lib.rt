// Expressions of RT0, their 18 bytes and their equality. Credentials, the kinds and the order by bytes are in modules of their own.
#![tactic(auto)]

ghost use Rattle.std.specs.Prelude.{◌≡◌, ◌+◌, ◌≤◌, ◌<◌, length};
ghost use Rattle.expression.specs.Bytes.{number_at, raw_at, raw_bytes, pasted};
ghost use Rattle.expression.specs.Form.{raw_of, well_formed, same_raw, form_of, read_of, ascends, is_role, is_empty, tail_formed, parts_formed};
ghost use Rattle.expression.specs.Form.{expression_of};
ghost use Rattle.expression.specs.laws.Form.{plain_raw};
ghost use Rattle.expression.specs.Same.{same_role, same as same_expression};
ghost use Rattle.expression.specs.laws.Key.{KeyOf};

pub use credentials::{
    is_body, read_credential, role_at, role_bytes, well_formed_credential, write_credential,
};
pub use kinds::{is_entity, is_role_expression};
pub use order::{before, before_credential};

mod credentials;
mod kinds;
mod order;

// A role's entity and name; both zero where a field is unused.
#[derive(Clone, Copy, PartialEq, Eq)]
pub struct Role {
    pub entity: u16,
    pub name: u16,
}

// Two to four roles; those past count are zero.
#[derive(Clone, Copy)]
pub struct Parts {
    pub count: u8,
    pub first: Role,
    pub second: Role,
    pub third: Role,
    pub fourth: Role,
}

// Kinds 1 to 5.
#[derive(Clone, Copy)]
pub enum Expression {
    Entity(u16),
    Role(Role),
    Linked(Role, u16),
    Intersection(Parts),
    Goal(u16),
}

// head <- body; the head's entity is the issuer.
#[derive(Clone, Copy)]
pub struct Credential {
    pub head: Role,
    pub body: Expression,
}

// The 18 bytes as numbers, of right form or not: kind, part count, eight numbers.
#[derive(Clone, Copy)]
pub struct Raw {
    pub kind: u8,
    pub count: u8,
    pub n0: u16,
    pub n1: u16,
    pub n2: u16,
    pub n3: u16,
    pub n4: u16,
    pub n5: u16,
    pub n6: u16,
    pub n7: u16,
}

// Two bytes, high byte first.
pub fn number_at(s: &[u8], at: usize) -> u16
    requires { at + 1 < length s.now }
    ensures { result ≡ number_at s.now at }
{
    (s[at] as u16) * 256 + (s[at + 1] as u16)
}

pub fn raw_at(s: &[u8], at: usize) -> Raw
    requires { at + 18 ≤ length s.now }
    ensures { result ≡ raw_at s.now at }
{
    Raw {
        kind: s[at],
        count: s[at + 1],
        n0: number_at(s, at + 2),
        n1: number_at(s, at + 4),
        n2: number_at(s, at + 6),
        n3: number_at(s, at + 8),
        n4: number_at(s, at + 10),
        n5: number_at(s, at + 12),
        n6: number_at(s, at + 14),
        n7: number_at(s, at + 16),
    }
}

// An expression with no parts.
fn plain(kind: u8, n0: u16, n1: u16, n2: u16) -> Raw
    ensures { result ≡ plain_raw kind n0 n1 n2 }
{
    Raw {
        kind,
        count: 0,
        n0,
        n1,
        n2,
        n3: 0,
        n4: 0,
        n5: 0,
        n6: 0,
        n7: 0,
    }
}

pub fn raw_of(e: Expression) -> Raw
    ensures { result ≡ raw_of e }
{
    match e {
        Expression::Entity(n) => plain(1, n, 0, 0),
        Expression::Role(r) => plain(2, r.entity, r.name, 0),
        Expression::Linked(r, n) => plain(3, r.entity, r.name, n),
        Expression::Intersection(p) => Raw {
            kind: 4,
            count: p.count,
            n0: p.first.entity,
            n1: p.first.name,
            n2: p.second.entity,
            n3: p.second.name,
            n4: p.third.entity,
            n5: p.third.name,
            n6: p.fourth.entity,
            n7: p.fourth.name,
        },
        Expression::Goal(n) => plain(5, n, 0, 0),
    }
}

// The only expression whose numbers may be these.
pub fn expression_of(r: Raw) -> Expression
    ensures { result ≡ expression_of r }
{
    let role = Role {
        entity: r.n0,
        name: r.n1,
    };
    match r.kind {
        1 => Expression::Entity(r.n0),
        2 => Expression::Role(role),
        3 => Expression::Linked(role, r.n2),
        4 => Expression::Intersection(Parts {
            count: r.count,
            first: role,
            second: Role {
                entity: r.n2,
                name: r.n3,
            },
            third: Role {
                entity: r.n4,
                name: r.n5,
            },
            fourth: Role {
                entity: r.n6,
                name: r.n7,
            },
        }),
        _ => Expression::Goal(r.n0),
    }
}

pub fn is_role(r: Role) -> bool
    ensures { result ≡ is_role r }
{
    (0 < r.entity) & (0 < r.name)
}

pub fn is_empty(r: Role) -> bool
    ensures { result ≡ is_empty r }
{
    (r.entity == 0) & (r.name == 0)
}

// Strictly, by entity, then name.
pub fn ascending(a: Role, b: Role) -> bool
    ensures { result ≡ ascends a b }
{
    (a.entity < b.entity) | ((a.entity == b.entity) & (a.name < b.name))
}

fn tail_formed(p: Parts) -> bool
    ensures { result ≡ tail_formed p }
{
    match p.count {
        2 => is_empty(p.third) & is_empty(p.fourth),
        3 => is_role(p.third) & ascending(p.second, p.third) & is_empty(p.fourth),
        4 => {
            is_role(p.third)
                & ascending(p.second, p.third)
                & is_role(p.fourth)
                & ascending(p.third, p.fourth)
        }
        _ => false,
    }
}

fn parts_formed(p: Parts) -> bool
    ensures { result ≡ parts_formed p }
{
    is_role(p.first) & is_role(p.second) & ascending(p.first, p.second) & tail_formed(p)
}

pub fn well_formed(e: Expression) -> bool
    ensures { result ≡ well_formed e }
{
    match e {
        Expression::Entity(n) => 0 < n,
        Expression::Role(r) => is_role(r),
        Expression::Linked(r, n) => is_role(r) & (0 < n),
        Expression::Intersection(p) => parts_formed(p),
        Expression::Goal(n) => 0 < n,
    }
}

// The two numbers of a role as one, so that one test compares both.
pub fn key_of(p: Role) -> u32
    ensures { KeyOf p result }
{
    p.entity as u32 + p.name as u32 * 65536
}

#[tactic(auto, unfolding(crate::specs::Same::same_role))]
pub fn same_role(p: Role, q: Role) -> bool
    ensures { result ≡ same_role p q }
{
    p == q
}

#[tactic(auto, unfolding(crate::specs::Same::same))]
pub fn same(x: Expression, y: Expression) -> bool
    ensures { result ≡ same_expression x y }
{
    same_raw(raw_of(x), raw_of(y))
}

pub fn same_raw(a: Raw, b: Raw) -> bool
    ensures { result ≡ same_raw a b }
{
    (a.kind == b.kind)
        & (a.count == b.count)
        & (a.n0 == b.n0)
        & (a.n1 == b.n1)
        & (a.n2 == b.n2)
        & (a.n3 == b.n3)
        & (a.n4 == b.n4)
        & (a.n5 == b.n5)
        & (a.n6 == b.n6)
        & (a.n7 == b.n7)
}

// Whether these are the numbers of the expression that they would be: of kind 1 to 5, and zero where one is unused.
fn is_exact(r: Raw) -> bool
    ensures { result ≡ same_raw (raw_of (expression_of r)) r }
{
    match r.kind {
        1 => same_raw(plain(1, r.n0, 0, 0), r),
        2 => same_raw(plain(2, r.n0, r.n1, 0), r),
        3 => same_raw(plain(3, r.n0, r.n1, r.n2), r),
        4 => true,
        5 => same_raw(plain(5, r.n0, 0, 0), r),
        _ => false,
    }
}

// An expression's numbers, if they are of right form.
pub fn form(r: Raw) -> Option<Expression>
    ensures { result ≡ form_of r }
{
    let e = expression_of(r);
    if is_exact(r) & well_formed(e) {
        Some(e)
    } else {
        None
    }
}

pub fn read_expression(s: &[u8], at: usize) -> Option<Expression>
    requires { at + 18 ≤ length s.now }
    ensures { result ≡ read_of s.now at }
{
    form(raw_at(s, at))
}

pub fn raw_bytes(r: Raw) -> [u8; 18]
    ensures { result ≡ raw_bytes r }
{
    [
        r.kind,
        r.count,
        (r.n0 / 256) as u8,
        (r.n0 % 256) as u8,
        (r.n1 / 256) as u8,
        (r.n1 % 256) as u8,
        (r.n2 / 256) as u8,
        (r.n2 % 256) as u8,
        (r.n3 / 256) as u8,
        (r.n3 % 256) as u8,
        (r.n4 / 256) as u8,
        (r.n4 % 256) as u8,
        (r.n5 / 256) as u8,
        (r.n5 % 256) as u8,
        (r.n6 / 256) as u8,
        (r.n6 % 256) as u8,
        (r.n7 / 256) as u8,
        (r.n7 % 256) as u8,
    ]
}

// All of src goes into dst from index at.
pub fn copy_in(dst: &mut [u8], at: usize, src: &[u8])
    requires { at + length src.now ≤ length dst.old }
    ensures { dst.new ≡ pasted dst.old at src.now }
{
    dst[at..at + src.len()].copy_from_slice(src);
}

pub fn write_expression(s: &mut [u8], at: usize, e: Expression)
    requires { at + 18 ≤ length s.old }
    ensures { s.new ≡ pasted s.old at (raw_bytes (raw_of e)) }
{
    let b = raw_bytes(raw_of(e));
    copy_in(s, at, &b);
}
