// Codewords, and what an opening of shares is to give: its definitions, in specs/, and their theorems, in proofs/. No code.
#![tactic(auto)]
