// One change of a choice: definitions and theorems, no code. `drafts` makes the changed file.
#![tactic(auto)]
