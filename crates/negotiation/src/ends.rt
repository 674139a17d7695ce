// The two ends of a negotiation.
ghost use Rattle.std.specs.Prelude.{◌≡◌};
ghost use Rattle.negotiation.specs.Ends.{requester as requester_of, entity_of};

use crate::Header;

// The sides.
pub const MEDIATOR: u8 = 0;

pub const REQUESTER: u8 = 1;

impl Header {
    pub fn requester(&self) -> u16
        ensures { result ≡ requester_of self.now }
    {
        if self.side == MEDIATOR {
            self.other
        } else {
            self.own
        }
    }

    // The entity of a verifier.
    pub fn entity_of(&self, v: u8) -> u16
        ensures { result ≡ entity_of self.now v }
    {
        if v == self.side { self.own } else { self.other }
    }
}
