// What advice on a job rests on: definitions and theorems, no code.
#![tactic(auto)]
