// The credentials of a storage.
ghost use Rattle.std.specs.Prelude.{◌≡◌, ◌<◌, ◌≤◌, length, []};
ghost use Rattle.rt0.specs.laws.Pool.{credentials};
ghost use Rattle.class.specs.laws.Names.{names_of, Ascending};
ghost use Rattle.record.specs.Record.{record_at};
ghost use Rattle.tables.specs.Check.{suits_storage, stored_number};
ghost use Rattle.tables.specs.laws.Group.{number_behind, step_of};
ghost use Rattle.tables.specs.laws.Groups.{credentials_of, pick_stored};
ghost use Rattle.tables.specs.laws.Reading.{StoredGone};
ghost use Rattle.numbers.specs.Sizes.{MOST-NAMES};

use crate::{judged, or_else, rising};
use class::{ISSUER_ALL, ISSUER_DEF, Names, SUBJECT_ALL};
use expression::{Credential, Expression, Role, before_credential, read_credential};
use numbers::{CLASS, CREDENTIAL_BYTES, MOST_STORED, OPERAND};
use record::{Record, begins_stored, read_record};
use rt0::Pool;

// Whether a head of class k may stand in a storage.
fn suits_storage(subject: bool, k: u8) -> bool
    ensures { result ≡ suits_storage subject k }
{
    if subject {
        return k == SUBJECT_ALL;
    }
    (k == ISSUER_DEF) | (k == ISSUER_ALL)
}

// The class rules for a stored credential: zero where it keeps them.
#[tactic(auto, unfolding(crate::specs::Check::stored_number))]
pub fn stored_number(names: &Names, subject: bool, c: Credential) -> u64
    requires { (names.now.count ≤ MOST-NAMES) × Ascending names.now.count names.now.name }
    ensures { result ≡ stored_number (names_of names.now) subject c }
{
    let h = names.class_of(c.head.name);
    let k = names.number_under(h, c);
    if suits_storage(subject, h) {
        return k;
    }
    or_else(k, CLASS)
}

// The credential of a record of the storage.
fn pick_stored(subject: bool, r: Record) -> Option<Credential>
    ensures { result ≡ pick_stored subject r }
{
    match r {
        Record::IssuerStored(c) => if subject { None } else { Some(c) },
        Record::SubjectStored(c) => if subject { Some(c) } else { None },
        _ => None,
    }
}

// What stands at an index, where a credential of the storage may stand; its class and its order are left to test. One of the storage is read
// without the record around it.
#[tactic(auto, unfolding(crate::specs::laws::Groups::credentials_of))]
fn stored_at(s: &[u8], at: usize, subject: bool) -> Result<Option<Credential>, u64>
    requires { at < length s.now }
    ensures { result ≡ step_of (credentials_of subject) (λ c. 0) (record_at s.now at) }
{
    if !begins_stored(s, at, subject) {
        return Ok(pick_stored(subject, read_record(s, at)?));
    }
    let Some(c) = read_credential(s, at + 1) else {
        return Err(OPERAND);
    };
    Ok(Some(c))
}

// The credential of the storage at an index behind others, so many, the last of which is last; none where another record stands.
#[tactic(auto, unfolding(crate::specs::laws::Group::behind, crate::specs::laws::Groups::credentials_of))]
fn next_stored(
    s: &[u8],
    at: usize,
    names: &Names,
    subject: bool,
    count: usize,
    last: Credential,
) -> Result<Option<Credential>, u64>
    requires { (at < length s.now) × (names.now.count ≤ MOST-NAMES) × Ascending names.now.count names.now.name }
    ensures { result ≡ step_of (credentials_of subject)
        (number_behind (credentials_of subject) (stored_number (names_of names.now) subject) count last)
        (record_at s.now at) }
{
    let Some(c) = stored_at(s, at, subject)? else {
        return Ok(None);
    };
    let up = (count == 0) | before_credential(last, c);
    let k = or_else(
        stored_number(names, subject, c),
        rising(up, count, MOST_STORED),
    );
    judged(k, c)
}

// The credentials of a storage from an index on. The index behind them.
pub fn read_stored(
    s: &[u8],
    start: usize,
    names: &Names,
    subject: bool,
    pool: &mut Pool,
) -> Result<usize, u64>
    requires { (names.now.count ≤ MOST-NAMES) × Ascending names.now.count names.now.name × (credentials pool.old ≡ []) }
    ensures { StoredGone (names_of names.now) subject s.now start result pool.new }
{
    let mut last = Credential {
        head: Role { entity: 0, name: 0 },
        body: Expression::Entity(0),
    };
    let mut at = start;
    while at < s.len() {
        let Some(c) = next_stored(s, at, names, subject, pool.count, last)? else {
            return Ok(at);
        };
        pool.push(c);
        last = c;
        at += CREDENTIAL_BYTES;
    }
    Ok(at)
}
