// That a granted read of a private page gives what was last written there: see specs/ for the words and proofs/Main.antt for the theorems.
#![tactic(auto)]
