// The edges of a linked target.
ghost use Rattle.std.specs.Prelude.{◌≡◌, List, ℕ, ◌<◌};
ghost use Rattle.rt0.specs.Lists.{any};
ghost use Rattle.rt0.specs.Pool.{up_to};
ghost use Rattle.graph.specs.laws.Graph.{nodes_of, edges_of, nodes_from};
ghost use Rattle.states.specs.laws.Brings.{EdgesFormed};
ghost use Rattle.states.specs.laws.Complete.{StateColumns};
ghost use Rattle.moves.specs.declared.Choice.TheVariants as C;
ghost use Rattle.moves.specs.Candidates.{mark_if};
ghost use Rattle.candidates.specs.laws.Place.{Bounded, done_at};
ghost use Rattle.candidates.specs.laws.Offers.{folded, offer};
ghost use Rattle.candidates.specs.laws.Links.{Monitoring, entity_in, is_named_at, is_solution, is_solved, solution_edge, solved_edge, is_monitor};
ghost use Rattle.candidates.specs.laws.Links.{is_complete_at, Linked};

use crate::Place;
use crate::done::or_else;
use expression::{Expression, Role};
use graph::{LINKING_IMPLICATION, MONITOR, SOLUTION, is_named};
use moves::Choice;
use rt0::expression_at;
use states::{NodeStates, is_complete};
use word::wide;

// The entity of a role.
fn entity_in(x: Expression) -> u16
    ensures { result ≡ entity_in x }
{
    match x {
        Expression::Role(a) => a.entity,
        _ => 0,
    }
}

// A mark, where it is allowed.
pub fn mark_if(marks: bool) -> Choice
    ensures { result ≡ mark_if marks }
{
    if marks { Choice::Mark } else { Choice::Nothing }
}

impl Place<'_> {
    // Whether edge j leads the node to a goal.
    #[tactic(auto, unfolding(crate::specs::laws::Links::is_monitor))]
    fn is_monitor(&self, j: usize) -> bool
        requires { j < 256 }
        ensures { let X = self.now.negotiation.now.edges in result ≡ is_monitor X.kind X.parent self.now.number j }
    {
        let edges = &self.negotiation.edges;
        (edges.kind[j] == MONITOR) & (edges.parent[j] == self.number)
    }

    // The node's children by linking-monitor edges, 1 for each.
    fn monitored(&self) -> [u8; 128]
        requires { Bounded self.now }
        ensures { let X = self.now.negotiation.now.edges in Monitoring X self.now.number X.count result }
    {
        let edges = &self.negotiation.edges;
        let mut r = [0u8; 128];
        for j in 0..edges.count {
            let c = wide(edges.child[j]);
            if self.is_monitor(j) & (c < 128) {
                r[c] = 1;
            }
        }
        r
    }

    // Whether edge j brings a goal that is monitored a satisfied solution.
    #[tactic(auto, unfolding(crate::specs::laws::Links::is_solution))]
    fn is_solution(&self, monitors: &[u8; 128], sat: &[u8; 128], j: usize) -> bool
        requires { (j < 256) × Bounded self.now }
        ensures { let n = self.now.negotiation.now in
            result ≡ is_solution n.nodes.count n.edges.kind n.edges.parent n.edges.child monitors.now sat.now j }
    {
        let edges = &self.negotiation.edges;
        if edges.kind[j] != SOLUTION {
            return false;
        }
        let count = self.negotiation.nodes.count;
        let g = wide(edges.parent[j]);
        let c = wide(edges.child[j]);
        if (count <= g) | (count <= c) {
            return false;
        }
        (monitors[g] == 1) & (sat[c] == 1)
    }

    // The best of what is chosen and the linking implication for node c, if that is a role of name r, whatever the states.
    #[tactic(auto, unfolding(crate::specs::laws::Links::is_named_at, crate::specs::laws::Links::solution_edge, crate::specs::laws::Offers::offer))]
    fn with_solution(&self, a: Role, r: u16, best: Choice, c: usize) -> Choice
        requires { (c < 128) × Bounded self.now }
        ensures { let N = self.now.negotiation.now.nodes in
            (state : List ℕ) → result ≡ offer (done_at self.now)
            (is_named_at (nodes_from N.count N.kind N.number N.subject N.verifier state) r)
            (solution_edge (nodes_from N.count N.kind N.number N.subject N.verifier state) self.now.node a) best c }
    {
        let nodes = &self.negotiation.nodes;
        let x = expression_at(&nodes.kind, &nodes.number, c);
        if !is_named(r, x) {
            return best;
        }
        let w = self.child_for(LINKING_IMPLICATION, Expression::Role(a), entity_in(x));
        self.better(best, w)
    }

    // The best of the linking implications for satisfied solutions, whatever the states.
    fn with_solutions(&self, monitors: &[u8; 128], sat: &[u8; 128], a: Role, r: u16) -> Choice
        requires { Bounded self.now }
        ensures { let N = self.now.negotiation.now.nodes in let X = self.now.negotiation.now.edges in
            (state : List ℕ) → result ≡ folded X.count (offer (done_at self.now)
            (is_solved (nodes_from N.count N.kind N.number N.subject N.verifier state) X monitors.now sat.now r)
            (solved_edge (nodes_from N.count N.kind N.number N.subject N.verifier state) X self.now.node a)) C.Nothing }
    {
        let edges = &self.negotiation.edges;
        let mut best = Choice::Nothing;
        for j in 0..edges.count {
            if self.is_solution(monitors, sat, j) {
                best = self.with_solution(a, r, best, wide(edges.child[j]));
            }
        }
        best
    }

    // Whether a goal that the node monitors is complete.
    fn any_complete(&self, states: &NodeStates) -> bool
        requires { let n = self.now.negotiation.now in
            Bounded self.now × EdgesFormed (nodes_of n.nodes) (edges_of n.edges)
            × StateColumns (nodes_of n.nodes) (edges_of n.edges) states.now.satisfied states.now.failed }
        ensures { let n = self.now.negotiation.now in
            result ≡ any (is_complete_at n.nodes n.edges self.now.number) (up_to n.edges.count (λ j. j)) }
    {
        let nodes = &self.negotiation.nodes;
        let edges = &self.negotiation.edges;
        for j in 0..edges.count {
            if self.is_monitor(j) && is_complete(nodes, edges, states, wide(edges.child[j])) {
                return true;
            }
        }
        false
    }

    // The goal; then a linking implication for each satisfied solution; then a mark once the goal is complete.
    pub fn link_rules(&self, states: &NodeStates, a: Role, r: u16) -> Choice
        requires { let n = self.now.negotiation.now in
            Bounded self.now × EdgesFormed (nodes_of n.nodes) (edges_of n.edges)
            × StateColumns (nodes_of n.nodes) (edges_of n.edges) states.now.satisfied states.now.failed }
        ensures { let n = self.now.negotiation.now in
            Linked n.nodes n.edges states.now.satisfied self.now.number self.now.node a r result }
    {
        let goal = self.child_for(MONITOR, Expression::Goal(r), self.node.subject);
        if !self.is_done(goal) {
            return Choice::Edge(goal);
        }
        let monitors = self.monitored();
        let best = self.with_solutions(&monitors, &states.satisfied, a, r);
        let marks = self.any_complete(states);
        or_else(best, mark_if(marks))
    }
}
