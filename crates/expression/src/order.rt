// The order by bytes, found from the numbers.
ghost use Rattle.std.specs.Prelude.{◌≡◌};
ghost use Rattle.expression.specs.Order.{leads, lex_less, raw_numbers, before_of, before_credential};

use crate::{Credential, Expression, Raw, raw_of};

// The first numbers decide, and where they are equal the rest does.
fn ahead(m: u16, n: u16, rest: bool) -> bool
    ensures { result ≡ leads m n rest }
{
    (m < n) | ((m == n) & rest)
}

fn before_raw(a: Raw, b: Raw) -> bool
    ensures { result ≡ lex_less (raw_numbers a) (raw_numbers b) }
{
    let rest = ahead(a.n7, b.n7, false);
    let rest = ahead(a.n6, b.n6, rest);
    let rest = ahead(a.n5, b.n5, rest);
    let rest = ahead(a.n4, b.n4, rest);
    let rest = ahead(a.n3, b.n3, rest);
    let rest = ahead(a.n2, b.n2, rest);
    let rest = ahead(a.n1, b.n1, rest);
    let rest = ahead(a.n0, b.n0, rest);
    let rest = (a.count < b.count) | ((a.count == b.count) & rest);
    (a.kind < b.kind) | ((a.kind == b.kind) & rest)
}

#[tactic(auto, unfolding(crate::specs::Order::before_of))]
pub fn before(x: Expression, y: Expression) -> bool
    ensures { result ≡ before_of x y }
{
    before_raw(raw_of(x), raw_of(y))
}

#[tactic(auto, unfolding(crate::specs::Order::before_of, crate::specs::Order::before_credential))]
pub fn before_credential(c: Credential, d: Credential) -> bool
    ensures { result ≡ before_credential c d }
{
    let h = c.head;
    let k = d.head;
    if h.entity != k.entity {
        return h.entity < k.entity;
    }
    if h.name != k.name {
        return h.name < k.name;
    }
    before(c.body, d.body)
}
