// What an access lists and moves, and what a failed probe leaves: theorems of specs/, no code.
#![tactic(auto)]
