// Where a frontier stops: the bodies of which its predicate is true.
ghost use Rattle.std.specs.Prelude.{◌≡◌, List, ℕ, ◌≤◌};
ghost use Rattle.expression.specs.declared.Expression.TheVariants as E;
ghost use Rattle.rt0.specs.laws.Pool.{pool_of};
ghost use Rattle.class.specs.laws.Names.{names_of, Ascending};
ghost use Rattle.tables.specs.laws.Tables.{pairs_of};
ghost use Rattle.frontier.specs.laws.Frontier.{Stops};
ghost use Rattle.moves.specs.laws.Stops.{predicate_of};
ghost use Rattle.numbers.specs.Sizes.{MOST-NAMES, MOST-SENSITIVE};

use crate::Predicate;
use crate::initial::is_subject_all;
use class::Names;
use expression::{Expression, Role};
use rt0::Pool;
use tables::Pairs;

// Whether the predicate is true of a role.
#[tactic(auto, unfolding(crate::specs::laws::Stops::predicate_of))]
fn stops_at(p: Predicate, names: &Names, pairs: &Pairs, a: Role) -> bool
    requires { (names.now.count ≤ MOST-NAMES) × Ascending names.now.count names.now.name × (pairs.now.count ≤ MOST-SENSITIVE) }
    ensures { result ≡ predicate_of p (names_of names.now) (pairs_of pairs.now) (E.Role a) }
{
    match p {
        Predicate::Oppo => is_subject_all(names, a.name),
        Predicate::Simp => false,
        Predicate::Sens => pairs.has(a),
    }
}

// Whether it is true of an expression.
#[tactic(auto, unfolding(crate::specs::laws::Stops::predicate_of))]
fn is_stop(p: Predicate, names: &Names, pairs: &Pairs, e: Expression) -> bool
    requires { (names.now.count ≤ MOST-NAMES) × Ascending names.now.count names.now.name × (pairs.now.count ≤ MOST-SENSITIVE) }
    ensures { result ≡ predicate_of p (names_of names.now) (pairs_of pairs.now) e }
{
    match e {
        Expression::Role(a) => stops_at(p, names, pairs, a),
        _ => true,
    }
}

// Of the credentials of a pool, those at whose bodies the frontier stops, whatever the heads.
pub fn stops(p: Predicate, names: &Names, pairs: &Pairs, pool: &Pool) -> [u8; 128]
    requires { (names.now.count ≤ MOST-NAMES) × Ascending names.now.count names.now.name × (pairs.now.count ≤ MOST-SENSITIVE)
        × (pool.now.count ≤ 128) }
    ensures { (H : List ℕ) → Stops (predicate_of p (names_of names.now) (pairs_of pairs.now))
        (pool_of pool.now.count H pool.now.kinds pool.now.numbers) result }
{
    let mut r = [0u8; 128];
    for i in 0..pool.count {
        r[i] = is_stop(p, names, pairs, pool.body(i)) as u8;
    }
    r
}
