// The Galois ring of words modulo 2^k: its definitions, in specs/, and its theory, in proofs/. No code.
#![tactic(auto)]
