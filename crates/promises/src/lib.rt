// Theorems over several calls, end to end: mathematics only.
#![tactic(auto)]
