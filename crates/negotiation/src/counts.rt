// Messages counted for each end.
ghost use Rattle.std.specs.Prelude.{◌≡◌, ◌<◌};
ghost use Rattle.negotiation.specs.Messages.{message_count, counted as counted_for};

use crate::Messages;
use crate::ends::MEDIATOR;

impl Messages {
    // Messages accepted and replies given together.
    pub fn count(self) -> u32
        ensures { result ≡ message_count self }
    {
        self.mediator as u32 + self.requester as u32
    }

    // One message more of a side.
    pub fn counted(self, side: u8) -> Self
        requires { message_count self < 65535 }
        ensures { result ≡ counted_for side self }
    {
        if side == MEDIATOR {
            return Self {
                mediator: self.mediator + 1,
                requester: self.requester,
            };
        }
        Self {
            mediator: self.mediator,
            requester: self.requester + 1,
        }
    }
}
