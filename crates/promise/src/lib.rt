// Demand 3 as one theorem: `specs/Promise.antt` states it of the definitions that the calls of `volume` are
// proved equal to, and `proofs/Theorem.antt` proves it. There is no code here.
#![tactic(auto)]
