// Satisfied nodes, by a queue of them.
ghost use Rattle.std.specs.Prelude.{◌≡◌, true, ℕ, ◌+◌, ◌≤◌, ◌<◌, List, get_or};
ghost use Rattle.propagation.specs.Flags.{at};
ghost use Rattle.propagation.specs.laws.Flags.{flag};
ghost use Rattle.propagation.specs.laws.Satisfied.{graph, graph_of, satisfied_of};
ghost use Rattle.propagation.specs.laws.Chains.{Chained};
ghost use Rattle.propagation.specs.laws.Work.{ready_at, Beyond, Base, Full, Marked, Brought, Visited, Done};

use crate::{Chains, Links, is_at};

// Whether the first `need` of the four slots from a on are filled.
#[tactic(auto, unfolding(crate::specs::laws::Work::ready_at))]
fn ready(need: u8, got: &[u8; 512], a: usize) -> bool
    requires { a + 4 ≤ 512 }
    ensures { result ≡ ready_at need got.now a }
{
    (need < 5)
        & ((need < 1) | (got[a] == 1))
        & ((need < 2) | (got[a + 1] == 1))
        & ((need < 3) | (got[a + 2] == 1))
        & ((need < 4) | (got[a + 3] == 1))
}

// The slots filled, the nodes satisfied, and these in the order of their finding.
#[derive(Clone, Copy)]
pub struct Work {
    pub got: [u8; 512],
    pub sat: [u8; 128],
    pub queue: [u8; 128],
    pub tail: usize,
}

impl Work {
    // Node p, if its slots are filled, is satisfied and joins the queue, whatever the edges.
    fn mark(&mut self, need: &[u8; 128], p: usize)
        requires { (p < 128) × ((get_or self.old.sat p 0 ≡ 1 → ⊥) → self.old.tail < 128) }
        ensures got { self.new.got ≡ self.old.got }
        ensures marked { (m : ℕ) (F S : List ℕ) → Base m (graph F S need.now) self.old
            → Marked m (graph F S need.now) self.old self.new p }
    {
        if self.sat[p] != 1 && ready(need[p], &self.got, p * 4) {
            self.sat[p] = 1;
            self.queue[self.tail] = p as u8;
            self.tail += 1;
        }
    }

    // Edge j, from a satisfied node, fills its slot, however many edges there are, wherever they are from.
    fn bring(&mut self, links: &Links, need: &[u8; 128], j: usize)
        requires { (m : ℕ) × (F : List ℕ) × (j < m) × Base m (graph F links.now.slot need.now) self.old }
        ensures { (m : ℕ) (F : List ℕ) → j < m → flag self.old.sat (get_or F j 0) ≡ true
            → Base m (graph F links.now.slot need.now) self.old
            → Full 128 (graph F links.now.slot need.now) self.old
            → Brought m (graph F links.now.slot need.now) self.old self.new j }
    {
        let s = links.slot[j] as usize;
        self.got[s] = 1;
        self.mark(need, s / 4);
    }

    // The edges from the satisfied node v, however many edges there are.
    fn visit(&mut self, links: &Links, need: &[u8; 128], chains: &Chains, v: u8)
        requires { (flag self.old.sat v ≡ true) × ((m : ℕ) × Chained m links.now.from chains.now.head chains.now.next
            × Base m (graph_of links.now need.now) self.old × Full 128 (graph_of links.now need.now) self.old) }
        ensures { (m : ℕ) → Chained m links.now.from chains.now.head chains.now.next
            → Base m (graph_of links.now need.now) self.old
            → Full 128 (graph_of links.now need.now) self.old
            → Visited m (graph_of links.now need.now) self.old self.new v 0 }
    {
        let mut h = chains.head[v as usize] as usize;
        while 0 < h {
            let j = h - 1;
            h = j;
            if links.from[j] == v {
                self.bring(links, need, j);
                h = chains.next[j] as usize;
            }
        }
    }

    // The queue from number `first` on, until it runs dry, however many edges there are.
    fn settle(&mut self, links: &Links, need: &[u8; 128], chains: &Chains, first: usize)
        requires { (m : ℕ) × Chained m links.now.from chains.now.head chains.now.next
            × Done m (graph_of links.now need.now) self.old first }
        ensures { (m : ℕ) → Chained m links.now.from chains.now.head chains.now.next
            → Done m (graph_of links.now need.now) self.old first
            → Done m (graph_of links.now need.now) self.new self.new.tail }
    {
        let mut q = first;
        while q < self.tail {
            let v = self.queue[q];
            self.visit(links, need, chains, v);
            q += 1;
        }
    }

    // Of n nodes, those that are satisfied without an edge, whatever the edges.
    fn seed(&mut self, n: usize, need: &[u8; 128])
        requires { (n ≤ 128) × Beyond n 5 need.now × ((F : List ℕ) × (S : List ℕ) × Base 0 (graph F S need.now) self.old) }
        ensures { (F S : List ℕ) → Base 0 (graph F S need.now) self.old → Done 0 (graph F S need.now) self.new self.new.tail }
    {
        for i in 0..n {
            self.mark(need, i);
        }
    }
}

// The satisfied nodes of a graph that edges are added to.
#[derive(Clone, Copy)]
pub struct Settling {
    pub chains: Chains,
    pub work: Work,
}

impl Settling {
    // No edges yet: of n nodes, those that are satisfied without one, whatever the edges.
    pub fn new(n: usize, need: &[u8; 128]) -> Self
        requires { (n ≤ 128) × Beyond n 5 need.now }
        ensures { (F S : List ℕ) → ((j : ℕ) → get_or S j 0 < 512)
            → Chained 0 F result.chains.head result.chains.next × Done 0 (graph F S need.now) result.work result.work.tail }
    {
        let mut settling = Self {
            chains: Chains::empty(),
            work: Work {
                got: [0; 512],
                sat: [0; 128],
                queue: [0; 128],
                tail: 0,
            },
        };
        settling.work.seed(n, need);
        settling
    }

    // Edge m is added to those before it.
    pub fn insert(&mut self, links: &Links, need: &[u8; 128], m: usize)
        requires { (m < 256) × Chained m links.now.from self.old.chains.head self.old.chains.next
            × Done m (graph_of links.now need.now) self.old.work self.old.work.tail }
        ensures { Chained (m + 1) links.now.from self.new.chains.head self.new.chains.next
            × Done (m + 1) (graph_of links.now need.now) self.new.work self.new.work.tail }
    {
        self.chains.link(links, m);
        if is_at(&self.work.sat, links.from[m] as usize, true) {
            let first = self.work.tail;
            self.work.bring(links, need, m);
            self.work.settle(links, need, &self.chains, first);
        }
    }
}

// The nodes, of n, that the edges satisfy.
pub fn satisfied(n: usize, links: &Links, need: &[u8; 128]) -> [u8; 128]
    requires { (n ≤ 128) × (links.now.count ≤ 256) × ((j : ℕ) → get_or links.now.slot j 0 < 512) × Beyond n 5 need.now }
    ensures { (i : ℕ) → flag result i ≡ at (satisfied_of links.now.count (graph_of links.now need.now)) i }
{
    let mut settling = Settling::new(n, need);
    for j in 0..links.count {
        settling.insert(links, need, j);
    }
    settling.work.sat
}
