// The credentials shown.
ghost use Rattle.std.specs.Prelude.{◌≡◌, [], ◌≤◌, ◌<◌};
ghost use Rattle.rt0.specs.laws.Pool.{pool_of, credential_at, credentials};
ghost use Rattle.class.specs.laws.Names.{names_of, Ascending};
ghost use Rattle.justification.specs.InTurn.{in_turn};
ghost use Rattle.damage.specs.Records.{credential_sound, credential_fits};
ghost use Rattle.numbers.specs.Sizes.{MOST-NAMES};

use class::Names;
use expression::{Credential, well_formed_credential};
use rt0::Pool;

// A credential by itself.
fn credential_sound(names: &Names, c: Credential) -> bool
    requires { (names.now.count ≤ MOST-NAMES) × Ascending names.now.count names.now.name }
    ensures { result ≡ credential_sound (names_of names.now) c }
{
    well_formed_credential(c) & (names.credential_number(c) == 0)
}

// Credential i among those before it.
fn credential_fits(names: &Names, shown: &Pool, i: usize) -> bool
    requires { (names.now.count ≤ MOST-NAMES) × Ascending names.now.count names.now.name × (i < 128) }
    ensures { result ≡ credential_fits (names_of names.now)
        (credentials (pool_of i shown.now.heads shown.now.kinds shown.now.numbers)) (credential_at shown.now i) }
{
    let c = shown.credential(i);
    if !credential_sound(names, c) {
        return false;
    }
    !shown.is_shown(i, c)
}

// All credentials.
pub fn shown_fit(names: &Names, shown: &Pool) -> bool
    requires { (names.now.count ≤ MOST-NAMES) × Ascending names.now.count names.now.name × (shown.now.count ≤ 128) }
    ensures { result ≡ in_turn (credential_fits (names_of names.now)) [] (credentials shown.now) }
{
    for i in 0..shown.count {
        if !credential_fits(names, shown, i) {
            return false;
        }
    }
    true
}
