// Rounds, plans and the planning graph: definitions and theorems, no code. `layers` has the code of the
// layers.
#![tactic(auto)]
