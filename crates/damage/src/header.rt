// The header.
ghost use Rattle.std.specs.Prelude.{◌≡◌};
ghost use Rattle.damage.specs.Header.{wanted_sound, header_sound, counts_agree, empty_sound, count_sound, end_sound};

use expression::{Role, is_empty, is_role};
use negotiation::{Header, MEDIATOR, Messages};
use numbers::MOST_MESSAGES;

// The wanted role of a side.
fn wanted_sound(side: u8, r: Role) -> bool
    ensures { result ≡ wanted_sound side r }
{
    if side != MEDIATOR {
        return is_empty(r);
    }
    is_role(r)
}

// Side, self, other end and wanted role.
pub fn header_sound(own: u16, h: &Header) -> bool
    ensures { result ≡ header_sound own h.now }
{
    (h.side < 2)
        & (h.own == own)
        & ((h.other != 0) & (h.other != h.own))
        & wanted_sound(h.side, h.wanted)
}

// The counts are equal, or the mediator's is one ahead.
pub fn counts_agree(m: Messages) -> bool
    ensures { result ≡ counts_agree m }
{
    (m.mediator == m.requester) | (m.mediator as u32 == m.requester as u32 + 1)
}

// Where no node stands.
pub fn empty_sound(h: &Header, edges: usize, shown: usize) -> bool
    ensures { result ≡ empty_sound h.now edges shown }
{
    (h.messages.count() == 0) & (h.end == 0) & (h.idle == 0) & (edges == 0) & (shown == 0)
}

// The message count where a node stands.
pub fn count_sound(m: Messages) -> bool
    ensures { result ≡ count_sound m }
{
    let n = m.count();
    (0 < n) & (n <= MOST_MESSAGES as u32)
}

// The end, by the propagated state of the primary.
pub fn end_sound(primary: u8, end: u8, idle: u8) -> bool
    ensures { result ≡ end_sound primary end idle }
{
    if primary == 1 {
        return (end == 1) & (idle == 0);
    }
    if primary == 2 {
        return (end == 2) & (idle == 0);
    }
    (((end == 0) | (end == 4)) & (idle < 2)) | ((end == 3) & (idle == 1))
}
