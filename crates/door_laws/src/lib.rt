// What a host may rely on at the doors: theorems alone, see specs/.
#![tactic(auto)]
