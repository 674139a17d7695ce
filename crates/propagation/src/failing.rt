// Failed nodes, by a queue of them and rounds.
ghost use Rattle.std.specs.Prelude.{◌≡◌, true, not, ◌&&◌, eqb, ℕ, ◌≤◌, ◌<◌, List, get_or};
ghost use Rattle.propagation.specs.Flags.{at};
ghost use Rattle.propagation.specs.laws.Flags.{flag};
ghost use Rattle.propagation.specs.laws.Satisfied.{graph, graph_of};
ghost use Rattle.propagation.specs.laws.Work.{Beyond};
ghost use Rattle.propagation.specs.laws.Chains.{Chained};
ghost use Rattle.propagation.specs.laws.Failed.{child_of, fails_by, failed_of, Sound, Touched, Swept};
ghost use Rattle.propagation.specs.laws.Failing.{Tallied, Keeps};

use crate::{Chains, Links, is_at};

// Whether a node of this way fails.
#[tactic(auto, unfolding(crate::specs::laws::Failed::fails_by))]
fn fails(way: u8, alive: bool, hit: bool) -> bool
    ensures { result ≡ fails_by way alive hit }
{
    ((way == 1) & !alive) | ((way == 2) & hit)
}

// How many of the edges bring each node a child, whatever the ways of the nodes.
fn tally(links: &Links) -> [u16; 128]
    requires { (links.now.count ≤ 256) × ((j : ℕ) → get_or links.now.slot j 0 < 512) }
    ensures { (W : List ℕ) → Tallied links.now.count (graph_of links.now W) result }
{
    let mut left = [0u16; 128];
    for j in 0..links.count {
        let p = links.slot[j] as usize / 4;
        if links.from[j] < 128 {
            left[p] += 1;
        }
    }
    left
}

// How many of the edges that bring each node a child are left, the edges gone, the nodes failed, and these in the order of their finding.
#[derive(Clone, Copy)]
struct Failures {
    left: [u16; 128],
    gone: [u8; 256],
    failed: [u8; 128],
    queue: [u8; 128],
    tail: usize,
}

impl Failures {
    // Node p, if it fails by what is left, or by a failed child that an edge brought, joins the queue, whatever the edges.
    fn fail_node(&mut self, way: &[u8; 128], p: usize, hit: bool)
        requires { (p < 128) × (self.old.tail ≤ 128) }
        ensures { (self.new.tail ≤ 128) × ((m : ℕ) (F S : List ℕ)
            → (hit ≡ true → child_of m (graph F S way.now) (at (failed_of m (graph F S way.now))) p ≡ true)
            → Keeps m (graph F S way.now) self.old → Keeps m (graph F S way.now) self.new) }
    {
        if self.tail < 128 && self.failed[p] != 1 && fails(way[p], self.left[p] != 0, hit) {
            self.failed[p] = 1;
            self.queue[self.tail] = p as u8;
            self.tail += 1;
        }
    }

    // Of n nodes, those that fail with no failed child, whatever the edges.
    fn fail_childless(&mut self, n: usize, way: &[u8; 128])
        requires { (n ≤ 128) × (self.old.tail ≤ 128) }
        ensures { (self.new.tail ≤ 128) × ((m : ℕ) (F S : List ℕ)
            → Keeps m (graph F S way.now) self.old → Keeps m (graph F S way.now) self.new) }
    {
        for i in 0..n {
            self.fail_node(way, i, false);
        }
    }

    // Edge j, if its child has failed, is gone, however many edges there are.
    fn drop_edge(&mut self, links: &Links, way: &[u8; 128], j: usize)
        requires { (self.old.tail ≤ 128) × ((m : ℕ) × (j < m) × Keeps m (graph_of links.now way.now) self.old) }
        ensures { (self.new.tail ≤ 128) × ((m : ℕ) → j < m
            → Keeps m (graph_of links.now way.now) self.old → Keeps m (graph_of links.now way.now) self.new) }
    {
        if is_at(&self.failed, links.from[j] as usize, true) && self.gone[j] != 1 {
            let p = links.slot[j] as usize / 4;
            self.gone[j] = 1;
            self.left[p] -= 1;
            self.fail_node(way, p, true);
        }
    }

    // The edges of a chain, likewise.
    fn drop_chain(&mut self, links: &Links, way: &[u8; 128], chains: &Chains, first: usize)
        requires { (self.old.tail ≤ 128) × ((j : ℕ) → get_or chains.now.next j 0 ≤ j)
            × ((m : ℕ) × (first ≤ m) × Keeps m (graph_of links.now way.now) self.old) }
        ensures { (self.new.tail ≤ 128) × ((m : ℕ) → first ≤ m
            → Keeps m (graph_of links.now way.now) self.old → Keeps m (graph_of links.now way.now) self.new) }
    {
        let mut h = first;
        while 0 < h {
            let j = h - 1;
            self.drop_edge(links, way, j);
            h = chains.next[j] as usize;
        }
    }

    // The queue of failed nodes, until it runs dry, likewise.
    fn run_queue(&mut self, links: &Links, way: &[u8; 128], chains: &Chains)
        requires { (self.old.tail ≤ 128) × ((m : ℕ) × Chained m links.now.from chains.now.head chains.now.next
            × Keeps m (graph_of links.now way.now) self.old) }
        ensures { (m : ℕ) → Chained m links.now.from chains.now.head chains.now.next
            → Keeps m (graph_of links.now way.now) self.old → Keeps m (graph_of links.now way.now) self.new }
    {
        let mut q = 0;
        while q < self.tail {
            let v = self.queue[q] as usize;
            self.drop_chain(links, way, chains, chains.head[v] as usize);
            q += 1;
        }
    }
}

// Nodes that have failed. That none is missing is left to the rounds.
fn fail_by_queue(n: usize, links: &Links, way: &[u8; 128]) -> [u8; 128]
    requires { (n ≤ 128) × (links.now.count ≤ 256) × ((j : ℕ) → get_or links.now.slot j 0 < 512) }
    ensures { Sound links.now.count (graph_of links.now way.now) result }
{
    let chains = Chains::of(links);
    let mut failures = Failures {
        left: tally(links),
        gone: [0; 256],
        failed: [0; 128],
        queue: [0; 128],
        tail: 0,
    };
    failures.fail_childless(n, way);
    failures.run_queue(links, way, &chains);
    failures.failed
}

// The nodes to which an edge brings a child that is in the column, or that is not, whatever the ways of the nodes.
fn touched(links: &Links, failed: &[u8; 128], on: bool) -> [u8; 128]
    requires { (links.now.count ≤ 256) × ((j : ℕ) → get_or links.now.slot j 0 < 512) }
    ensures { (W : List ℕ) → Touched links.now.count (graph_of links.now W) failed.now on result }
{
    let mut r = [0u8; 128];
    for j in 0..links.count {
        if is_at(failed, links.from[j] as usize, on) {
            r[links.slot[j] as usize / 4] = 1;
        }
    }
    r
}

fn fails_anew(way: u8, alive: u8, hit: u8, failed: u8) -> bool
    ensures { result ≡ (not (eqb failed 1) && fails_by way (eqb alive 1) (eqb hit 1)) }
{
    (failed != 1) & fails(way, alive == 1, hit == 1)
}

// Of n nodes, those that fail by the columns are added; how many they are.
fn sweep(
    n: usize,
    way: &[u8; 128],
    alive: &[u8; 128],
    hit: &[u8; 128],
    failed: &mut [u8; 128],
) -> usize
    requires { (n ≤ 128) × Beyond n 0 way.now }
    ensures { Swept way.now alive.now hit.now failed.old 128 failed.new result }
{
    let mut added = 0;
    for i in 0..n {
        if fails_anew(way[i], alive[i], hit[i], failed[i]) {
            failed[i] = 1;
            added += 1;
        }
    }
    added
}

// The nodes, of n, that have failed over the edges. The queue finds them, and the round that adds none proves that all are found.
pub fn failed(n: usize, links: &Links, way: &[u8; 128]) -> [u8; 128]
    requires { (n ≤ 128) × (links.now.count ≤ 256) × ((j : ℕ) → get_or links.now.slot j 0 < 512) × Beyond n 0 way.now }
    ensures { (i : ℕ) → flag result i ≡ at (failed_of links.now.count (graph_of links.now way.now)) i }
{
    let mut failed = fail_by_queue(n, links, way);
    loop {
        let alive = touched(links, &failed, false);
        let hit = touched(links, &failed, true);
        if sweep(n, way, &alive, &hit, &mut failed) == 0 {
            return failed;
        }
    }
}
