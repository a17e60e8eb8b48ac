// The numbers of candidates (document 01, "Primes"): a crate of its own, since they are computed. There is no code. Read next: proofs/Counts.antt.
#![tactic(auto)]
