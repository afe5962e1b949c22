// Every unit that can be reached is well formed: theorems of specs/, no code.
#![tactic(auto)]
