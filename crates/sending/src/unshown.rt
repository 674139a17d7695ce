// Which own credentials may show and are not shown yet, 1 for each. The flags are kept along a reply: of the credentials shown, only those that were
// not looked at before are.
ghost use Rattle.std.specs.Prelude.{◌≡◌, not, ◌&&◌, List, ◌++◌, ℕ, ◌≤◌, eqb};
ghost use Rattle.expression.specs.declared.Credential.{Credential};
ghost use Rattle.rt0.specs.Shown.{is_shown};
ghost use Rattle.rt0.specs.laws.Pool.{credentials};
ghost use Rattle.rules.specs.laws.Table.{chosen};
ghost use Rattle.needed.specs.laws.Needed.{rest_of};
ghost use Rattle.moves.specs.laws.Own.{Prepared};
ghost use Rattle.sending.specs.laws.Fresh.{FreshIn, UnshownIn, Fresh};
ghost use Rattle.sending.specs.laws.Sent.{side_chosen};
ghost use Rattle.sending.specs.laws.Unshown.{unshown_of};
ghost use Rattle.numbers.specs.Sizes.{MOST-SHOWN, MOST-STORED};

use crate::pool::own_pool;
use expression::{Credential, key_of, raw_of};
use moves::Preparation;
use rt0::Pool;

// The flags of 0x12 and of 0x13, and of how many of the credentials shown each of these speaks.
#[derive(Clone, Copy)]
pub struct Unshown {
    pub seen: [usize; 2],
    pub issuer: [u8; 128],
    pub subject: [u8; 128],
}

// Whether c is one of the credentials shown from number a on.
fn is_among(shown: &Pool, a: usize, c: Credential) -> bool
    requires { (a ≤ shown.now.count) × (shown.now.count ≤ 128) }
    ensures { result ≡ is_shown (rest_of shown.now a) c }
{
    let key = key_of(c.head);
    let raw = raw_of(c.body);
    for i in a..shown.count {
        if shown.is_at(key, raw, i) {
            return true;
        }
    }
    false
}

// The flag of an own credential once the credentials from number a on are shown too.
fn flag_after(flag: u8, c: Credential, shown: &Pool, a: usize) -> u8
    requires { (a ≤ shown.now.count) × (shown.now.count ≤ 128) }
    ensures { eqb result 1 ≡ (eqb flag 1 && not (is_shown (rest_of shown.now a) c)) }
{
    if flag != 1 {
        return 0;
    }
    if is_among(shown, a, c) {
        return 0;
    }
    1
}

// The flags of a set, where the first `seen` of the credentials shown were looked at before.
fn refresh(set: &Pool, shown: &Pool, seen: usize, flags: &mut [u8; 128])
    requires { (set.now.count ≤ 128) × (seen ≤ shown.now.count) × (shown.now.count ≤ 128) }
    ensures { (on : List ℕ) → FreshIn (credentials shown.now) set.now on seen flags.old
        → UnshownIn (credentials shown.now) set.now on flags.new }
{
    if seen == shown.count {
        return;
    }
    for i in 0..set.count {
        flags[i] = flag_after(flags[i], set.credential(i), shown, seen);
    }
}

// The credentials shown and, behind them, those of a set that may show and are not shown; the first of those shown were looked at before.
fn fresh_pool(shown: &Pool, set: &Pool, seen: usize, flags: &mut [u8; 128]) -> Pool
    requires { (shown.now.count ≤ MOST-SHOWN) × (set.now.count ≤ MOST-STORED) × (seen ≤ shown.now.count) }
    ensures few { result.count ≤ 128 }
    ensures flags { (on : List ℕ) → FreshIn (credentials shown.now) set.now on seen flags.old
        → UnshownIn (credentials shown.now) set.now on flags.new
        × (credentials result ≡ credentials shown.now ++ unshown_of (credentials shown.now) (chosen set.now on)) }
{
    refresh(set, shown, seen, flags);
    own_pool(shown, set, flags)
}

impl Unshown {
    // None of the credentials shown was looked at.
    pub fn new(own: &Preparation) -> Self
        ensures { (shown : List Credential) → Fresh shown own.now result.seen result.issuer result.subject }
    {
        let subject = own.visible;
        Self {
            seen: [0; 2],
            issuer: [1u8; 128],
            subject,
        }
    }

    // The credentials shown and, behind them, those of our set for a side that are not shown: 0x12 where we verify, else 0x13 less direct
    // credentials of sensitive roles.
    pub fn side_pool(&mut self, own: &Preparation, ours: bool, shown: &Pool) -> Pool
        requires { Prepared own.now × (shown.now.count ≤ MOST-SHOWN)
            × Fresh (credentials shown.now) own.now self.old.seen self.old.issuer self.old.subject }
        ensures few { result.count ≤ 128 }
        ensures all { credentials result
            ≡ credentials shown.now ++ unshown_of (credentials shown.now) (side_chosen own.now ours) }
        ensures fresh { Fresh (credentials shown.now) own.now self.new.seen self.new.issuer self.new.subject }
    {
        if ours {
            let before = self.seen[0];
            self.seen[0] = shown.count;
            return fresh_pool(shown, &own.house.issuer, before, &mut self.issuer);
        }
        let before = self.seen[1];
        self.seen[1] = shown.count;
        fresh_pool(shown, &own.house.subject, before, &mut self.subject)
    }
}
