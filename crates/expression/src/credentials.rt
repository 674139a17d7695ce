// Credentials and their 22 bytes.
ghost use Rattle.std.specs.Prelude.{◌≡◌, true, ◌+◌, ◌≤◌, ◌<◌, length};
ghost use Rattle.expression.specs.Bytes.{pasted};
ghost use Rattle.expression.specs.Form.{well_formed};
ghost use Rattle.expression.specs.Credential.{is_body, begins_with, well_formed_credential, checked_credential, read_credential, role_at, role_bytes};
ghost use Rattle.expression.specs.Credential.{credential_bytes};

use crate::{
    Credential, Expression, Role, copy_in, is_role, number_at, read_expression, well_formed,
    write_expression,
};

pub fn is_body(e: Expression) -> bool
    ensures { result ≡ is_body e }
{
    !matches!(e, Expression::Goal(_))
}

fn begins_with(issuer: u16, e: Expression) -> bool
    ensures { result ≡ begins_with issuer e }
{
    match e {
        Expression::Linked(r, _) => r.entity == issuer,
        _ => true,
    }
}

#[tactic(auto, unfolding(crate::specs::Credential::well_formed_credential))]
pub fn well_formed_credential(c: Credential) -> bool
    ensures { result ≡ well_formed_credential c }
{
    is_role(c.head) & well_formed(c.body) & is_body(c.body) & begins_with(c.head.entity, c.body)
}

// A credential whose body is of right form.
#[tactic(auto, unfolding(crate::specs::Credential::well_formed_credential))]
fn checked(c: Credential) -> Option<Credential>
    requires { well_formed c.body ≡ true }
    ensures { result ≡ checked_credential c }
{
    if is_role(c.head) & is_body(c.body) & begins_with(c.head.entity, c.body) {
        Some(c)
    } else {
        None
    }
}

#[tactic(auto, unfolding(crate::specs::Credential::read_credential))]
pub fn read_credential(s: &[u8], at: usize) -> Option<Credential>
    requires { at + 22 ≤ length s.now }
    ensures { result ≡ read_credential s.now at }
{
    let head = role_at(s, at);
    let body = read_expression(s, at + 4)?;
    checked(Credential { head, body })
}

// A role: entity and name.
pub fn role_at(s: &[u8], at: usize) -> Role
    requires { at + 3 < length s.now }
    ensures { result ≡ role_at s.now at }
{
    Role {
        entity: number_at(s, at),
        name: number_at(s, at + 2),
    }
}

pub fn role_bytes(r: Role) -> [u8; 4]
    ensures { result ≡ role_bytes r }
{
    [
        (r.entity / 256) as u8,
        (r.entity % 256) as u8,
        (r.name / 256) as u8,
        (r.name % 256) as u8,
    ]
}

pub fn write_credential(s: &mut [u8], at: usize, c: Credential)
    requires { at + 22 ≤ length s.old }
    ensures { s.new ≡ pasted s.old at (credential_bytes c) }
{
    let b = role_bytes(c.head);
    copy_in(s, at, &b);
    write_expression(s, at + 4, c.body);
}
