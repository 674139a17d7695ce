// The nodes that commands add.
ghost use Rattle.std.specs.Prelude.{◌≡◌};
ghost use Rattle.applied.specs.Step.{primary_of, verifier_of, child_of};

use expression::Expression;
use graph::{CONTROL, Node};
use message::{NewEdge, Opening};
use negotiation::{Header, MEDIATOR, REQUESTER};

// The primary.
pub fn primary_of(h: Header, o: Opening) -> Node
    ensures { result ≡ primary_of h o }
{
    Node {
        expression: Expression::Role(o.role),
        subject: h.requester(),
        verifier: MEDIATOR,
        state: o.state,
    }
}

// The verifier of a new child of p.
fn verifier_of(kind: u8, p: Node) -> u8
    ensures { result ≡ verifier_of kind p }
{
    if kind != CONTROL {
        return p.verifier;
    }
    if p.verifier == MEDIATOR {
        REQUESTER
    } else {
        MEDIATOR
    }
}

// The new child of p.
pub fn child_of(p: Node, n: NewEdge) -> Node
    ensures { result ≡ child_of p n }
{
    Node {
        expression: n.expression,
        subject: n.subject,
        verifier: verifier_of(n.kind, p),
        state: n.state,
    }
}
