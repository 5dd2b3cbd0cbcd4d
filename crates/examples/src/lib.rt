// The examples of the rules: definitions and a proof, no code.
#![tactic(auto)]
