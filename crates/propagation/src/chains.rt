// Edges in chains, one for each node that they lead from.
ghost use Rattle.std.specs.Prelude.{◌+◌, ◌≤◌, ◌<◌, List, ℕ};
ghost use Rattle.propagation.specs.laws.Chains.{Chained};

use crate::Links;

// head[v] and next[j] are the number of an edge plus one, or 0.
#[derive(Clone, Copy)]
pub struct Chains {
    pub head: [u16; 256],
    pub next: [u16; 256],
}

impl Chains {
    // Those of no edges, wherever edges are from.
    pub fn empty() -> Self
        ensures { (F : List ℕ) → Chained 0 F result.head result.next }
    {
        Self {
            head: [0; 256],
            next: [0; 256],
        }
    }

    // Edge m joins the chain of the edges from its node.
    pub fn link(&mut self, links: &Links, m: usize)
        requires { (m < 256) × Chained m links.now.from self.old.head self.old.next }
        ensures { Chained (m + 1) links.now.from self.new.head self.new.next }
    {
        let f = links.from[m] as usize;
        self.next[m] = self.head[f];
        self.head[f] = (m + 1) as u16;
    }

    pub fn of(links: &Links) -> Self
        requires { links.now.count ≤ 256 }
        ensures { Chained links.now.count links.now.from result.head result.next }
    {
        let mut chains = Self::empty();
        for j in 0..links.count {
            chains.link(links, j);
        }
        chains
    }
}
