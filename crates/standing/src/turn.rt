// Whose turn it is.
ghost use Rattle.std.specs.Prelude.{◌≡◌};
ghost use Rattle.negotiation.specs.Ends.{other_side};
ghost use Rattle.standing.specs.Turn.{sends as sends_at};

use negotiation::Messages;

pub fn other_side(side: u8) -> u8
    ensures { result ≡ other_side side }
{
    if side == 0 { 1 } else { 0 }
}

// Whether a side sends next.
pub fn sends(side: u8, messages: Messages) -> bool
    ensures { result ≡ sends_at side messages }
{
    messages.count() % 2 == side as u32
}
