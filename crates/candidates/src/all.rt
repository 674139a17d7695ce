// The edges of a linked target A.r1.r2 whose first name is issuer-traces-all: to the frontiers of the roles B.r2, for "each entity B such that
// A.r1 ← B".
ghost use Rattle.std.specs.Prelude.{◌≡◌, true, ℕ, ◌≤◌, ◌<◌, List};
ghost use Rattle.rt0.specs.laws.Pool.{pool_of, credentials};
ghost use Rattle.rules.specs.laws.Table.{chosen};
ghost use Rattle.rules.specs.laws.Ruled.{Ruled};
ghost use Rattle.relation.specs.laws.Relation.{Relation};
ghost use Rattle.tables.specs.laws.Tables.{tables_of};
ghost use Rattle.propagation.specs.laws.Flags.{flag};
ghost use Rattle.moves.specs.declared.Choice.TheVariants as C;
ghost use Rattle.moves.specs.laws.Own.{Prepared};
ghost use Rattle.moves.specs.laws.Stops.{Told};
ghost use Rattle.moves.specs.Candidates.{first_not};
ghost use Rattle.candidates.specs.laws.Place.{Bounded, done_at};
ghost use Rattle.candidates.specs.laws.Offers.{folded};
ghost use Rattle.candidates.specs.laws.Skipped.{Skipped};
ghost use Rattle.candidates.specs.laws.Collected.{Added, Grown, Collected};
ghost use Rattle.candidates.specs.laws.All.{is_from, offer_role, offer_roles, all_edges};
ghost use Rattle.candidates.specs.laws.Reach.{LinkFound};

use crate::Place;
use class::SUBJECT_ALL;
use closure::{Rules, dependents};
use expression::{Expression, Role, is_entity};
use frontier::reached;
use graph::IMPLICATION;
use moves::{Choice, Preparation};
use relation::{ask, relation};
use rt0::Pool;
use rules::rules_of;

// Whether x is an entity, and a is from it.
#[tactic(auto, unfolding(crate::specs::laws::All::is_from))]
fn is_from(
    pool: &Pool,
    rules: &Rules,
    deps: &[u64; 260],
    on: &[u8; 128],
    rows: &[u64; 260],
    a: Role,
    x: Expression,
) -> bool
    requires { (pool.now.count ≤ 128) × Ruled pool.now rules.now × Relation pool.now on.now rows.now }
    ensures { result ≡ is_from (chosen pool.now on.now) a x }
{
    is_entity(x) && ask(pool, rules, deps, on, rows, Expression::Role(a), x)
}

// Of the credentials of a pool, those whose body is an entity that a is from.
fn flagged(
    pool: &Pool,
    rules: &Rules,
    deps: &[u64; 260],
    on: &[u8; 128],
    rows: &[u64; 260],
    a: Role,
) -> [u8; 128]
    requires { (pool.now.count ≤ 128) × Ruled pool.now rules.now × Relation pool.now on.now rows.now }
    ensures { Told (is_from (chosen pool.now on.now) a) pool.now pool.now.count result }
{
    let mut r = [0u8; 128];
    for k in 0..pool.count {
        r[k] = is_from(pool, rules, deps, on, rows, a, pool.body(k)) as u8;
    }
    r
}

// "each entity B such that A.r1 ← B", by the credentials of which B is the body.
pub fn members(pool: &Pool, a: Role) -> [u8; 128]
    requires { pool.now.count ≤ 128 }
    ensures { Told (is_from (credentials pool.now) a) pool.now pool.now.count result }
{
    let rules = rules_of(pool);
    let deps = dependents(&rules);
    let on = [1u8; 128];
    let rows = relation(pool, &rules, &deps, &on);
    flagged(pool, &rules, &deps, &on, &rows, a)
}

// The first m flags of one column are set in another too.
fn add_flags(m: usize, all: &mut [u8; 128], found: &[u8; 128])
    requires { m ≤ 128 }
    ensures { Added m all.old found.now all.new }
{
    for i in 0..m {
        all[i] = ((all[i] == 1) | (found[i] == 1)) as u8;
    }
}

// The credentials that are found from the role B.r are flagged, if x is an entity B.
fn add_found(
    pool: &Pool,
    on: &[u8; 128],
    stop: &[u8; 128],
    all: &mut [u8; 128],
    r: u16,
    x: Expression,
)
    requires { pool.now.count ≤ 128 }
    ensures { Grown pool.now on.now stop.now r x all.old all.new }
{
    if let Expression::Entity(b) = x {
        let found = reached(pool, on, stop, Role { entity: b, name: r });
        add_flags(pool.count, all, &found);
    }
}

// The credentials that are found from the role B.r of any member.
pub fn found_from_all(
    pool: &Pool,
    on: &[u8; 128],
    stop: &[u8; 128],
    flags: &[u8; 128],
    r: u16,
) -> [u8; 128]
    requires { pool.now.count ≤ 128 }
    ensures { Collected pool.now on.now stop.now flags.now r pool.now.count result }
{
    let mut all = [0u8; 128];
    for k in 0..pool.count {
        if flags[k] == 1 {
            add_found(pool, on, stop, &mut all, r, pool.body(k));
        }
    }
    all
}

// The next flagged credential from an index on, or m.
pub fn next_flagged(m: usize, flags: &[u8; 128], from: usize) -> usize
    requires { (m ≤ 128) × (from ≤ m) }
    ensures { Skipped (flag flags.now) from m result × (result < m → flag flags.now result ≡ true) }
{
    for k in from..m {
        if flags[k] == 1 {
            return k;
        }
    }
    m
}

impl Place<'_> {
    // The best of what is chosen and the edge to the role B.r, if x is an entity B.
    #[tactic(auto, unfolding(crate::specs::laws::All::offer_role))]
    fn with_role(&self, r: u16, best: Choice, x: Expression) -> Choice
        requires { Bounded self.now }
        ensures { result ≡ offer_role (done_at self.now) self.now.node r best x }
    {
        match x {
            Expression::Entity(b) => {
                let e = Expression::Role(Role { entity: b, name: r });
                self.better(best, self.child_for(IMPLICATION, e, self.node.subject))
            }
            _ => best,
        }
    }

    // The best of the edges to the roles B.r of all members, whatever the heads.
    fn with_roles(&self, pool: &Pool, flags: &[u8; 128], r: u16) -> Choice
        requires { (pool.now.count ≤ 128) × Bounded self.now }
        ensures { (H : List ℕ) → result ≡ folded pool.now.count (offer_roles (done_at self.now)
            (pool_of pool.now.count H pool.now.kinds pool.now.numbers) flags.now self.now.node r) C.Nothing }
    {
        let mut best = Choice::Nothing;
        for k in 0..pool.count {
            if flags[k] == 1 {
                best = self.with_role(r, best, pool.body(k));
            }
        }
        best
    }

    // The first edge in order that is not done, by what is found for the linked target.
    pub fn all_edges(&self, own: &Preparation, found: &[u8; 128], r: u16) -> Choice
        requires { Prepared own.now × Bounded self.now }
        ensures { (a : Role) → LinkFound own.now a r found.now
            → result ≡ first_not (done_at self.now) C.Nothing (all_edges (tables_of own.now.house) self.now.node a r) }
    {
        let house = &own.house;
        if house.names.class_of(r) == SUBJECT_ALL {
            return self.with_roles(&house.issuer, found, r);
        }
        self.with_members(&house.issuer, &own.oppo, found, true)
    }
}
