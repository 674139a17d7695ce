// Credentials, opens, marks and ends.
ghost use Rattle.std.specs.Prelude.{◌≡◌, ◌≤◌};
ghost use Rattle.class.specs.laws.Names.{names_of, Ascending};
ghost use Rattle.negotiation.specs.laws.State.{state_of};
ghost use Rattle.legal.specs.Number.{show_number, open_number, mark_number, end_number};
ghost use Rattle.numbers.specs.Sizes.{MOST-NAMES, MOST-NODES, MOST-SHOWN};

use class::Names;
use expression::Credential;
use negotiation::Negotiation;
use numbers::{ABSENT, FULL, OPENING, PRESENT, PROCESSED};
use word::wide;

pub fn show_number(names: &Names, n: &Negotiation, c: Credential) -> u64
    requires { (names.now.count ≤ MOST-NAMES) × Ascending names.now.count names.now.name × (n.now.shown.count ≤ MOST-SHOWN) }
    ensures { result ≡ show_number (names_of names.now) (state_of n.now) c }
{
    let k = names.credential_number(c);
    if k != 0 {
        return k;
    }
    if n.nodes.count == 0 {
        return OPENING;
    }
    if n.shown.is_shown(n.shown.count, c) {
        return PRESENT;
    }
    if Negotiation::SHOWN <= n.shown.count {
        return FULL;
    }
    0
}

pub fn open_number(n: &Negotiation) -> u64
    ensures { result ≡ open_number (state_of n.now) }
{
    if n.nodes.count != 0 {
        return OPENING;
    }
    0
}

pub fn mark_number(side: u8, n: &Negotiation, i: u8) -> u64
    requires { n.now.nodes.count ≤ MOST-NODES }
    ensures { result ≡ mark_number side (state_of n.now) i }
{
    if n.nodes.count == 0 {
        return OPENING;
    }
    if n.nodes.count <= wide(i) {
        return ABSENT;
    }
    if n.nodes.node(i as usize).is_processed(side) {
        return PROCESSED;
    }
    0
}

pub fn end_number(n: &Negotiation) -> u64
    ensures { result ≡ end_number (state_of n.now) }
{
    if n.nodes.count == 0 {
        return OPENING;
    }
    0
}
