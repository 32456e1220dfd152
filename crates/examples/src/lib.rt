// The marked examples of paper 01: mathematics only.
#![tactic(auto)]
