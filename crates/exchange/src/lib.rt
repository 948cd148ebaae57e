// The exchange of steps in opposite sides of a parallel: definitions and laws alone.
#![tactic(auto)]
