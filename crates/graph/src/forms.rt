// The forms of edges, and legal states.
ghost use Rattle.std.specs.Prelude.{◌≡◌};
ghost use Rattle.graph.specs.Form.{is_standard, is_target, is_named, is_monitor, is_solution, is_first, has_role, is_part, same_verifier, same_ends, is_control};
ghost use Rattle.graph.specs.Form.{form as form_of, legal_state};

use crate::Node;
use expression::{Expression, Parts, same};

// The kinds of edges.
pub const IMPLICATION: u8 = 1;

pub const MONITOR: u8 = 2;

pub const SOLUTION: u8 = 3;

pub const LINKING_IMPLICATION: u8 = 4;

pub const INTERSECTION: u8 = 5;

pub const CONTROL: u8 = 6;

// A role or a linked role.
fn is_standard(e: Expression) -> bool
    ensures { result ≡ is_standard e }
{
    matches!(e, Expression::Role(_) | Expression::Linked(_, _))
}

// The expression and the subject of a target.
fn is_target(e: Expression, s: u16) -> bool
    ensures { result ≡ is_target e s }
{
    match e {
        Expression::Entity(a) => a == s,
        Expression::Goal(_) => false,
        _ => true,
    }
}

// A role B.r.
pub fn is_named(name: u16, e: Expression) -> bool
    ensures { result ≡ is_named name e }
{
    matches!(e, Expression::Role(a) if a.name == name)
}

// A.r1.r2 and ?X.r2.
fn is_monitor(e: Expression, c: Expression) -> bool
    ensures { result ≡ is_monitor e c }
{
    matches!(e, Expression::Linked(_, r) if same(c, Expression::Goal(r)))
}

// ?X.r2 and B.r2.
fn is_solution(e: Expression, c: Expression) -> bool
    ensures { result ≡ is_solution e c }
{
    matches!(e, Expression::Goal(r) if is_named(r, c))
}

// A.r1.r2 and A.r1.
fn is_first(e: Expression, c: Expression) -> bool
    ensures { result ≡ is_first e c }
{
    matches!(e, Expression::Linked(a, _) if same(c, Expression::Role(a)))
}

// One of the roles of an intersection.
#[tactic(auto, unfolding(crate::specs::Form::has_role))]
fn has_role(p: Parts, c: Expression) -> bool
    ensures { result ≡ has_role p c }
{
    if same(c, Expression::Role(p.first)) {
        return true;
    }
    if same(c, Expression::Role(p.second)) {
        return true;
    }
    if p.count == 2 {
        return false;
    }
    if same(c, Expression::Role(p.third)) {
        return true;
    }
    if p.count == 3 {
        return false;
    }
    same(c, Expression::Role(p.fourth))
}

// An intersection and one of its roles.
fn is_part(e: Expression, c: Expression) -> bool
    ensures { result ≡ is_part e c }
{
    matches!(e, Expression::Intersection(p) if has_role(p, c))
}

fn same_verifier(p: Node, c: Node) -> bool
    ensures { result ≡ same_verifier p c }
{
    c.verifier == p.verifier
}

fn same_ends(p: Node, c: Node) -> bool
    ensures { result ≡ same_ends p c }
{
    same_verifier(p, c) & (c.subject == p.subject)
}

fn is_control(v: u16, p: Node, c: Node) -> bool
    ensures { result ≡ is_control v p c }
{
    let e = p.expression;
    let x = c.expression;
    is_standard(e) & is_standard(x) & !same_verifier(p, c) & (c.subject == v)
}

// Whether an edge of kind k from c to p has the right form; v is the entity of p's verifier.
#[tactic(auto, unfolding(crate::specs::Form::form))]
pub fn form(k: u8, v: u16, p: Node, c: Node) -> bool
    ensures { result ≡ form_of k v p c }
{
    let e = p.expression;
    let x = c.expression;
    match k {
        IMPLICATION => is_standard(e) & is_target(x, c.subject) & same_ends(p, c),
        MONITOR => is_monitor(e, x) & same_ends(p, c),
        SOLUTION => is_solution(e, x) & same_ends(p, c),
        LINKING_IMPLICATION => is_first(e, x) & same_verifier(p, c),
        INTERSECTION => is_part(e, x) & same_ends(p, c),
        CONTROL => is_control(v, p, c),
        _ => false,
    }
}

// Whether a node with this expression may start in state s.
#[tactic(auto, unfolding(crate::specs::Form::legal_state))]
pub fn legal_state(e: Expression, s: u8) -> bool
    ensures { result ≡ legal_state e s }
{
    match e {
        Expression::Entity(_) => s == 3,
        Expression::Role(_) | Expression::Linked(_, _) => s < 4,
        Expression::Intersection(_) => (0 < s) & (s < 4),
        Expression::Goal(_) => (s == 1) | (s == 3),
    }
}
