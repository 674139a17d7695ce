// RT0: credentials in columns.
#![tactic(auto)]

ghost use Rattle.std.specs.Prelude.{◌≡◌, false, [], ◌∷◌, ◌++◌, ◌≤◌, ◌<◌, ◌+◌, ◌*◌};
ghost use Rattle.expression.specs.Same.{same_role};
ghost use Rattle.expression.specs.laws.Key.{KeyOf};
ghost use Rattle.rt0.specs.laws.Pool.{head_at, body_at, credential_at, raw_at_columns, expression_in, credentials as credentials_of};
ghost use Rattle.rt0.specs.laws.Heads.{NoHead};
ghost use Rattle.rt0.specs.laws.Added.{pair, stored, Sized, Stored};

use expression::{Credential, Expression, Raw, Role, expression_of, key_of, raw_of};
pub use shown::same_expression;

mod shown;

// Credentials one after the other: head i at 2 i, the body's kind and part count at 2 i, its eight numbers at 8 i.
#[derive(Clone, Copy)]
pub struct Pool {
    pub count: usize,
    pub heads: [u16; 256],
    pub kinds: [u8; 256],
    pub numbers: [u16; 1024],
}

impl Pool {
    pub fn empty() -> Self
        ensures { credentials_of result ≡ [] }
    {
        Self {
            count: 0,
            heads: [0u16; 256],
            kinds: [0u8; 256],
            numbers: [0u16; 1024],
        }
    }

    // The credential c becomes the last one.
    pub fn push(&mut self, c: Credential)
        requires { self.old.count < 128 }
        ensures added { credentials_of self.new ≡ credentials_of self.old ++ (c ∷ []) }
        ensures stored { Stored self.old.count c self.old self.new }
    {
        let i = self.count;
        let raw = raw_of(c.body);
        store_head(&mut self.heads, i, c.head);
        store_kind(&mut self.kinds, i, raw);
        store_numbers(&mut self.numbers, i, raw);
        self.count = i + 1;
    }

    // The head of credential i.
    pub fn head(&self, i: usize) -> Role
        requires { i < 128 }
        ensures { result ≡ head_at self.now i }
    {
        Role {
            entity: self.heads[i * 2],
            name: self.heads[i * 2 + 1],
        }
    }

    // The body of credential i.
    pub fn body(&self, i: usize) -> Expression
        requires { i < 128 }
        ensures { result ≡ body_at self.now i }
    {
        expression_at(&self.kinds, &self.numbers, i)
    }

    // Credential i.
    pub fn credential(&self, i: usize) -> Credential
        requires { i < 128 }
        ensures { result ≡ credential_at self.now i }
    {
        Credential {
            head: self.head(i),
            body: self.body(i),
        }
    }

    // Whether credential i has the head with this key.
    pub fn has_head(&self, key: u32, i: usize) -> bool
        requires { i < 128 }
        ensures { (p : Role) → KeyOf p key → result ≡ same_role (head_at self.now i) p }
    {
        key_of(self.head(i)) == key
    }

    // Whether one of the eight credentials from i on has the head with this key. All are looked at, so that they are compared at once.
    pub fn some_head(&self, key: u32, i: usize) -> bool
        requires { i ≤ 120 }
        ensures { (p : Role) → KeyOf p key → result ≡ false → NoHead self.now.heads p i (i + 8) }
    {
        self.has_head(key, i)
            | self.has_head(key, i + 1)
            | self.has_head(key, i + 2)
            | self.has_head(key, i + 3)
            | self.has_head(key, i + 4)
            | self.has_head(key, i + 5)
            | self.has_head(key, i + 6)
            | self.has_head(key, i + 7)
    }
}

// The role p goes into a column of heads as number i.
pub fn store_head(heads: &mut [u16; 256], i: usize, p: Role)
    requires { i < 128 }
    ensures { heads.new ≡ pair heads.old (i * 2) p.entity p.name }
{
    heads[i * 2] = p.entity;
    heads[i * 2 + 1] = p.name;
}

// The kind and the part count of an expression go into their column as number i.
pub fn store_kind(kinds: &mut [u8; 256], i: usize, r: Raw)
    requires { i < 128 }
    ensures { kinds.new ≡ pair kinds.old (i * 2) r.kind r.count }
{
    kinds[i * 2] = r.kind;
    kinds[i * 2 + 1] = r.count;
}

// The eight numbers of an expression go into their column as number i.
pub fn store_numbers(numbers: &mut [u16; 1024], i: usize, r: Raw)
    requires { i < 128 }
    ensures { numbers.new ≡ stored numbers.old (i * 8) r }
{
    let at = i * 8;
    numbers[at] = r.n0;
    numbers[at + 1] = r.n1;
    numbers[at + 2] = r.n2;
    numbers[at + 3] = r.n3;
    numbers[at + 4] = r.n4;
    numbers[at + 5] = r.n5;
    numbers[at + 6] = r.n6;
    numbers[at + 7] = r.n7;
}

fn raw_at(kinds: &[u8; 256], numbers: &[u16; 1024], i: usize) -> Raw
    requires { i < 128 }
    ensures { result ≡ raw_at_columns kinds.now numbers.now i }
{
    let at = i * 8;
    Raw {
        kind: kinds[i * 2],
        count: kinds[i * 2 + 1],
        n0: numbers[at],
        n1: numbers[at + 1],
        n2: numbers[at + 2],
        n3: numbers[at + 3],
        n4: numbers[at + 4],
        n5: numbers[at + 5],
        n6: numbers[at + 6],
        n7: numbers[at + 7],
    }
}

// Expression i of columns.
pub fn expression_at(kinds: &[u8; 256], numbers: &[u16; 1024], i: usize) -> Expression
    requires { i < 128 }
    ensures { result ≡ expression_in kinds.now numbers.now i }
{
    expression_of(raw_at(kinds, numbers, i))
}
