// What t labs together can see: mathematics only.
#![tactic(auto)]
