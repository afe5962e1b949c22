// A hit answered where it stands is answered as the big steps answer it: theorems in specs/, no code.
#![tactic(auto)]
