// Classes of role names, and what class an expression has by them.
#![tactic(auto)]

ghost use Rattle.std.specs.Prelude.{◌≡◌, cond, [], ◌∷◌, ◌<◌, ◌+◌, ◌-◌, ◌≤◌, ltb, get_or};
ghost use Rattle.class.specs.laws.Names.{names_of, Ascending, Between, Placed};
ghost use Rattle.class.specs.Names.{class_of};
ghost use Rattle.class.specs.Typing.{linked as linked_of, together, type_of, suits as suits_of, credential_number};
ghost use Rattle.numbers.specs.Sizes.{MOST-NAMES};

use expression::{Credential, Expression, Parts};
use numbers::{CLASS, MOST_NAMES};

// A role name and its class: 1 issuer-def, 2 issuer-all, 3 subject-all.
#[derive(Clone, Copy)]
pub struct Name {
    pub name: u16,
    pub class: u8,
}

// Names in ascending order, and their classes.
#[derive(Clone, Copy)]
pub struct Names {
    pub count: usize,
    pub name: [u16; 64],
    pub class: [u8; 64],
}

// What an expression is by its names: it is ill-typed, it suits every class, or it has a class.
#[derive(Clone, Copy)]
pub enum Typing {
    Ill,
    Any,
    Class(u8),
}

pub const ISSUER_DEF: u8 = 1;

pub const ISSUER_ALL: u8 = 2;

pub const SUBJECT_ALL: u8 = 3;

// The second half of the names from low on where the first, so many, are less than m, else the first.
fn nearer(name: &[u16; 64], m: u16, low: usize, half: usize) -> usize
    requires { (0 < half) × (low + half ≤ 64) }
    ensures { result ≡ cond (ltb (get_or name.now (low + half - 1) 0) m) (low + half) low }
{
    if name[low + half - 1] < m {
        return low + half;
    }
    low
}

// The only place where m may stand among the names from start on, so many.
fn place_among(name: &[u16; 64], m: u16, start: usize, most: usize) -> usize
    requires { (0 < most) × (start + most ≤ 64) }
    ensures { Placed name.now m start most result }
{
    let mut low = start;
    let mut size = most;
    while 1 < size {
        let half = size / 2;
        low = nearer(name, m, low, half);
        size = size - half;
    }
    low
}

// Where 32 names begin among which m stands if it stands among n names: at the first, or 32 before the end.
fn half_place(n: usize, name: &[u16; 64], m: u16) -> usize
    requires { (32 ≤ n) × (n ≤ MOST-NAMES) × Ascending n name.now }
    ensures { Between n name.now m result 32 }
{
    let half = MOST_NAMES / 2;
    if name[half - 1] < m {
        return n - half;
    }
    0
}

// The only place where m may stand among n names. From 32 names on the search is among 32, a fixed number: it is compiled without a loop.
fn place(n: usize, name: &[u16; 64], m: u16) -> usize
    requires { (0 < n) × (n ≤ MOST-NAMES) × Ascending n name.now }
    ensures { Between n name.now m result 1 }
{
    let half = MOST_NAMES / 2;
    if n < half {
        return place_among(name, m, 0, n);
    }
    place_among(name, m, half_place(n, name, m), half)
}

// A linked role, by the classes of its two names.
#[tactic(auto, unfolding(crate::specs::Typing::linked))]
fn linked(a: u8, b: u8) -> Typing
    ensures { result ≡ linked_of a b }
{
    if (a == SUBJECT_ALL) & (b == SUBJECT_ALL) {
        return Typing::Class(SUBJECT_ALL);
    }
    if (a == ISSUER_ALL) & (b == ISSUER_ALL) {
        return Typing::Class(ISSUER_ALL);
    }
    if ((a == ISSUER_DEF) | (a == ISSUER_ALL)) & (b == SUBJECT_ALL) {
        return Typing::Class(ISSUER_DEF);
    }
    if (a == ISSUER_ALL) & (b == ISSUER_DEF) {
        return Typing::Class(ISSUER_DEF);
    }
    Typing::Ill
}

// An intersection, by the classes of its four roles; a role that is missing is given as another.
#[tactic(auto, unfolding(crate::specs::Typing::together))]
fn meet(a: u8, b: u8, c: u8, d: u8) -> Typing
    ensures { result ≡ together (a ∷ b ∷ c ∷ d ∷ []) }
{
    if (a == SUBJECT_ALL) & (b == SUBJECT_ALL) & (c == SUBJECT_ALL) & (d == SUBJECT_ALL) {
        return Typing::Class(SUBJECT_ALL);
    }
    if (a == ISSUER_ALL) & (b == ISSUER_ALL) & (c == ISSUER_ALL) & (d == ISSUER_ALL) {
        return Typing::Class(ISSUER_ALL);
    }
    Typing::Class(ISSUER_DEF)
}

// Whether a body of type t may stand under a head of class k.
fn suits(t: Typing, k: u8) -> bool
    ensures { result ≡ suits_of t k }
{
    match t {
        Typing::Ill => false,
        Typing::Any => true,
        Typing::Class(a) => (k == ISSUER_DEF) | (a == k),
    }
}

impl Names {
    // The class of the name m: subject-all where it is not listed.
    pub fn class_of(&self, m: u16) -> u8
        requires { (self.now.count ≤ MOST-NAMES) × Ascending self.now.count self.now.name }
        ensures { result ≡ class_of (names_of self.now) m }
    {
        if self.count == 0 {
            return SUBJECT_ALL;
        }
        let i = place(self.count, &self.name, m);
        if self.name[i] != m {
            return SUBJECT_ALL;
        }
        self.class[i]
    }

    // An intersection.
    #[tactic(auto, unfolding(crate::specs::Typing::type_of, crate::specs::Typing::together, rt0::specs::From::roles_of))]
    fn type_of_parts(&self, p: Parts) -> Typing
        requires { (self.now.count ≤ MOST-NAMES) × Ascending self.now.count self.now.name }
        ensures { result ≡ type_of (names_of self.now) (Expression.Intersection p) }
    {
        let a = self.class_of(p.first.name);
        let b = self.class_of(p.second.name);
        if p.count == 2 {
            return meet(a, b, a, a);
        }
        let c = self.class_of(p.third.name);
        if p.count == 3 {
            return meet(a, b, c, a);
        }
        let d = self.class_of(p.fourth.name);
        meet(a, b, c, d)
    }

    // What class an expression has.
    #[tactic(auto, unfolding(crate::specs::Typing::type_of))]
    pub fn type_of(&self, x: Expression) -> Typing
        requires { (self.now.count ≤ MOST-NAMES) × Ascending self.now.count self.now.name }
        ensures { result ≡ type_of (names_of self.now) x }
    {
        match x {
            Expression::Entity(_) => Typing::Any,
            Expression::Role(r) => Typing::Class(self.class_of(r.name)),
            Expression::Linked(r, m) => linked(self.class_of(r.name), self.class_of(m)),
            Expression::Intersection(p) => self.type_of_parts(p),
            Expression::Goal(m) => Typing::Class(self.class_of(m)),
        }
    }

    // The class rules for a credential whose head has class k: zero where it keeps them.
    #[tactic(auto, unfolding(crate::specs::Typing::credential_number))]
    pub fn number_under(&self, k: u8, c: Credential) -> u64
        requires { (self.now.count ≤ MOST-NAMES) × Ascending self.now.count self.now.name × (k ≡ class_of (names_of self.now) c.head.name) }
        ensures { result ≡ credential_number (names_of self.now) c }
    {
        if suits(self.type_of(c.body), k) {
            return 0;
        }
        CLASS
    }

    // The class rules for a credential: zero where it keeps them.
    pub fn credential_number(&self, c: Credential) -> u64
        requires { (self.now.count ≤ MOST-NAMES) × Ascending self.now.count self.now.name }
        ensures { result ≡ credential_number (names_of self.now) c }
    {
        self.number_under(self.class_of(c.head.name), c)
    }
}
