// A credential among those of a pool.
ghost use Rattle.std.specs.Prelude.{◌≡◌, ◌≤◌, ◌<◌};
ghost use Rattle.rt0.specs.laws.Pool.{pool_of, body_at, credential_at, expression_in, credentials};
ghost use Rattle.expression.specs.declared.Expression.{Expression};
ghost use Rattle.expression.specs.Form.{raw_of};
ghost use Rattle.expression.specs.Same.{same as same_of, same_credential};
ghost use Rattle.expression.specs.laws.Key.{KeyOf};
ghost use Rattle.rt0.specs.Shown.{is_shown};

use crate::{Pool, expression_at};
use expression::{Credential, Raw, key_of, raw_of, same_raw};

// Whether expression i of columns is the one whose numbers are those of raw.
pub fn same_expression(kinds: &[u8; 256], numbers: &[u16; 1024], raw: Raw, i: usize) -> bool
    requires { i < 128 }
    ensures { (e : Expression) → raw ≡ raw_of e → result ≡ same_of (expression_in kinds.now numbers.now i) e }
{
    let kind = raw.kind;
    if numbers[i * 8] != raw.n0 {
        return false;
    }
    if kind < 5 {
        if kinds[i * 2] != kind {
            return false;
        }
        if kind == 2 {
            return numbers[i * 8 + 1] == raw.n1;
        }
    }
    same_raw(raw_of(expression_at(kinds, numbers, i)), raw)
}

impl Pool {
    // Whether body i is the expression whose numbers are those of raw.
    pub fn is_body(&self, raw: Raw, i: usize) -> bool
        requires { i < 128 }
        ensures { (e : Expression) → raw ≡ raw_of e → result ≡ same_of (body_at self.now i) e }
    {
        same_expression(&self.kinds, &self.numbers, raw, i)
    }

    // Credential i has the head with this key, and the body whose numbers are those of raw.
    pub fn is_at(&self, key: u32, raw: Raw, i: usize) -> bool
        requires { i < 128 }
        ensures { (c : Credential) → KeyOf c.head key → raw ≡ raw_of c.body
            → result ≡ same_credential (credential_at self.now i) c }
    {
        if !self.has_head(key, i) {
            return false;
        }
        self.is_body(raw, i)
    }

    // Whether c is one of the first n credentials.
    pub fn is_shown(&self, n: usize, c: Credential) -> bool
        requires { n ≤ 128 }
        ensures { result ≡ is_shown (credentials (pool_of n self.now.heads self.now.kinds self.now.numbers)) c }
    {
        let key = key_of(c.head);
        let raw = raw_of(c.body);
        for i in 0..n {
            if self.is_at(key, raw, i) {
                return true;
            }
        }
        false
    }
}
