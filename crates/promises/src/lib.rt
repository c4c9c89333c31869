// What is promised of the clock: no code, only statements that cite the laws of the crates below.
#![tactic(auto)]
