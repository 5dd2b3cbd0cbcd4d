// The user's demands on the open calls: definitions and theorems, no code.
#![tactic(auto)]
