// The calls of a run: their definition, in specs/.
#![tactic(auto)]
