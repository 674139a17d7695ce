// What a reply asks of our tables, found once.
ghost use Rattle.std.specs.Prelude.{◌≡◌, not, cond, ◌≤◌};
ghost use Rattle.rt0.specs.laws.Pool.{credentials};
ghost use Rattle.rules.specs.laws.Table.{chosen};
ghost use Rattle.tables.specs.laws.Tables.{pairs_of};
ghost use Rattle.tables.specs.laws.Decoding.{Housed};
ghost use Rattle.tables.specs.Lookup.{is_direct};
ghost use Rattle.tables.specs.Public.{less_direct};
ghost use Rattle.moves.specs.laws.Own.{Prepared};
ghost use Rattle.numbers.specs.Sizes.{MOST-SENSITIVE};

use expression::Credential;
use moves::{Predicate, Preparation, stops};
use tables::House;

// 1 for a credential that may show, 0 for the direct one of a sensitive role.
fn visible_flag(house: &House, c: Credential) -> u8
    requires { house.now.sensitive.count ≤ MOST-SENSITIVE }
    ensures { result ≡ cond (not (is_direct house.now.own (pairs_of house.now.sensitive) c)) 1 0 }
{
    if house.is_direct(c) { 0 } else { 1 }
}

// The credentials of 0x13 that are no direct ones of sensitive roles, 1 for each.
fn visible_of(house: &House) -> [u8; 128]
    requires { (house.now.sensitive.count ≤ MOST-SENSITIVE) × (house.now.subject.count ≤ 128) }
    ensures { chosen house.now.subject result
        ≡ less_direct house.now.own (pairs_of house.now.sensitive) (credentials house.now.subject) }
{
    let mut on = [0u8; 128];
    for i in 0..house.subject.count {
        on[i] = visible_flag(house, house.subject.credential(i));
    }
    on
}

// The columns of a house: what of 0x13 may show, and where the frontiers of the predicates stop.
pub fn prepare(house: House) -> Preparation
    requires { Housed house }
    ensures prepared { Prepared result }
    ensures same { result.house ≡ house }
{
    let visible = visible_of(&house);
    let names = &house.names;
    let pairs = &house.sensitive;
    let oppo = stops(Predicate::Oppo, names, pairs, &house.issuer);
    let simp = stops(Predicate::Simp, names, pairs, &house.subject);
    let sens = stops(Predicate::Sens, names, pairs, &house.subject);
    Preparation {
        house,
        visible,
        oppo,
        simp,
        sens,
    }
}
