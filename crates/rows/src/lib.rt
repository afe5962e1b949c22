// The twelve rows of document 01: one table and its proof in specs/, no code.
#![tactic(auto)]
