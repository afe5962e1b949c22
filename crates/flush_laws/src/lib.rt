// The laws of the flush commands: theorems of specs/, no code.
#![tactic(auto)]
