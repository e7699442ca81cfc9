// The theorems about whole traces stand in proofs/RoundTrip.antt, over the definitions of specs/; there is no code here.
#![tactic(auto)]
