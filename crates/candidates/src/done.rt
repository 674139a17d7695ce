// Which edges are done, and the least that is not.
ghost use Rattle.std.specs.Prelude.{◌≡◌};
ghost use Rattle.moves.specs.Candidates.{precedes as precedes_of};
ghost use Rattle.moves.specs.Rules.{child_for};
ghost use Rattle.candidates.specs.laws.Place.{Bounded, done_at};
ghost use Rattle.candidates.specs.laws.Least.{improves as improves_of, better as better_of, or_else};

use crate::Place;
use expression::{Expression, before, same};
use graph::Edge;
use moves::{Candidate, Choice};
use word::wide;

impl Place<'_> {
    // An edge into the node, to a child of its verifier.
    pub fn child_for(&self, kind: u8, x: Expression, b: u16) -> Candidate
        ensures { result ≡ child_for kind self.now.node x b }
    {
        Candidate {
            kind,
            verifier: self.node.verifier,
            expression: x,
            subject: b,
            direct: false,
        }
    }

    // Whether an edge into the node stands already, or would join it to itself.
    pub fn is_done(&self, w: Candidate) -> bool
        requires { Bounded self.now }
        ensures { result ≡ done_at self.now w }
    {
        let nodes = &self.negotiation.nodes;
        let edges = &self.negotiation.edges;
        let c = nodes.find(nodes.count, w.expression, w.verifier, w.subject);
        if nodes.count <= c {
            return false;
        }
        if wide(self.number) == c {
            return true;
        }
        let e = Edge {
            kind: w.kind,
            parent: self.number,
            child: c as u8,
        };
        edges.has(edges.count, e)
    }

    // The lesser of what is chosen and an edge into the node, unless that is done.
    #[tactic(auto, unfolding(crate::specs::laws::Least::better))]
    pub fn better(&self, best: Choice, w: Candidate) -> Choice
        requires { Bounded self.now }
        ensures { result ≡ better_of (done_at self.now) best w }
    {
        if !improves(best, w) {
            return best;
        }
        if self.is_done(w) {
            return best;
        }
        Choice::Edge(w)
    }
}

// By the child's expression, then its subject.
#[tactic(auto, unfolding(moves::specs::Candidates::precedes))]
fn precedes(v: Candidate, w: Candidate) -> bool
    ensures { result ≡ precedes_of v w }
{
    let x = v.expression;
    let y = w.expression;
    if before(x, y) {
        return true;
    }
    if !same(x, y) {
        return false;
    }
    v.subject < w.subject
}

// Whether an edge comes before what is chosen.
fn improves(best: Choice, w: Candidate) -> bool
    ensures { result ≡ improves_of best w }
{
    match best {
        Choice::Edge(v) => precedes(w, v),
        _ => true,
    }
}

// What is chosen, or else the rest.
pub fn or_else(a: Choice, rest: Choice) -> Choice
    ensures { result ≡ or_else a rest }
{
    match a {
        Choice::Nothing => rest,
        _ => a,
    }
}
