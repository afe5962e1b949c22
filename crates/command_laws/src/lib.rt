// The flush laws for the commands as a program runs them: theorems alone, see specs/.
#![tactic(auto)]
