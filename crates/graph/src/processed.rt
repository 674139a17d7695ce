// Which side has processed a node.
ghost use Rattle.std.specs.Prelude.{◌≡◌};
ghost use Rattle.graph.specs.Processed.{processed_by, marked_state};

use crate::Node;

impl Node {
    // Whether a side has processed it.
    #[tactic(auto, unfolding(crate::specs::Processed::processed_by))]
    pub fn is_processed(self, side: u8) -> bool
        ensures { result ≡ processed_by side self }
    {
        if self.verifier == side {
            return self.state % 2 == 1;
        }
        self.state / 2 % 2 == 1
    }

    // Its state once the side has.
    #[tactic(auto, unfolding(crate::specs::Processed::marked_state))]
    pub fn marked_state(self, side: u8) -> u8
        ensures { result ≡ marked_state side self }
    {
        if self.verifier == side {
            return self.state | 1;
        }
        self.state | 2
    }
}
