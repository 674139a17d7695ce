// The frontier of a role over a pool of credentials.
//
// From the role, the credentials with it as their head are found; from one that is found, unless its body is a stop, those with its body as
// their head. The frontier has the stops among the bodies of what is found. Each credential joins a queue once, and once the pool is looked
// through for those that follow it.
#![tactic(auto)]

ghost use Rattle.std.specs.Prelude.{◌≡◌, List, ℕ, ◌<◌, ◌≤◌};
ghost use Rattle.expression.specs.declared.Expression.TheVariants as E;
ghost use Rattle.expression.specs.laws.Key.{KeyOf};
ghost use Rattle.rt0.specs.laws.Pool.{pool_of};
ghost use Rattle.frontier.specs.laws.Frontier.{Reaches};
ghost use Rattle.frontier.specs.laws.Queue.{is_next as is_next_of, Queue, Joined, Entered, Followed};

use expression::{Expression, Role, key_of};
use rt0::Pool;
use word::wide;

// The credentials found, and these in the order of their finding.
#[derive(Clone, Copy)]
struct Work {
    found: [u8; 128],
    queue: [u8; 128],
    tail: usize,
}

// Whether credential i is on and has the head with this key.
fn is_next(pool: &Pool, on: &[u8; 128], key: u32, i: usize) -> bool
    requires { i < 128 }
    ensures { (p : Role) → KeyOf p key → result ≡ is_next_of pool.now.heads on.now p i }
{
    pool.has_head(key, i) && on[i] == 1
}

impl Work {
    // Credential i, if it is on and has the head with this key, is found and joins the queue, whatever the bodies.
    fn join(&mut self, pool: &Pool, on: &[u8; 128], key: u32, i: usize)
        requires { (i < 128) × Queue self.old }
        ensures { (p : Role) → KeyOf p key → (n : ℕ) (K N : List ℕ) → i < n → Joined (pool_of n pool.now.heads K N) on.now
            self.old self.new p i }
    {
        if !is_next(pool, on, key, i) {
            return;
        }
        if self.found[i] == 1 {
            return;
        }
        self.found[i] = 1;
        self.queue[self.tail] = i as u8;
        self.tail += 1;
    }

    // The credentials with the head p are found.
    fn enter(&mut self, pool: &Pool, on: &[u8; 128], p: Role)
        requires { (pool.now.count ≤ 128) × Queue self.old }
        ensures { (K N : List ℕ) → Entered (pool_of pool.now.count pool.now.heads K N) on.now self.old self.new (E.Role p) pool.now.count }
    {
        let key = key_of(p);
        for i in 0..pool.count {
            self.join(pool, on, key, i);
        }
    }

    // The credentials with the head x are found: none, unless x is a role.
    fn enter_body(&mut self, pool: &Pool, on: &[u8; 128], x: Expression)
        requires { (pool.now.count ≤ 128) × Queue self.old }
        ensures { (K N : List ℕ) → Entered (pool_of pool.now.count pool.now.heads K N) on.now self.old self.new x pool.now.count }
    {
        if let Expression::Role(p) = x {
            self.enter(pool, on, p);
        }
    }

    // The credentials that follow credential j are found.
    fn follow(&mut self, pool: &Pool, on: &[u8; 128], stop: &[u8; 128], j: usize)
        requires { (j < 128) × (pool.now.count ≤ 128) × Queue self.old }
        ensures { Followed pool.now on.now stop.now self.old self.new j }
    {
        if stop[j] == 1 {
            return;
        }
        self.enter_body(pool, on, pool.body(j));
    }
}

// The credentials that are found from the role e.
pub fn reached(pool: &Pool, on: &[u8; 128], stop: &[u8; 128], e: Role) -> [u8; 128]
    requires { pool.now.count ≤ 128 }
    ensures { Reaches pool.now on.now stop.now e result }
{
    let mut work = Work {
        found: [0u8; 128],
        queue: [0u8; 128],
        tail: 0,
    };
    work.enter(pool, on, e);
    let mut q = 0;
    while q < work.tail {
        let j = wide(work.queue[q]);
        work.follow(pool, on, stop, j);
        q += 1;
    }
    work.found
}
