// The two ends of a negotiation: the other end takes what we reply. No code, only laws.
#![tactic(auto)]
