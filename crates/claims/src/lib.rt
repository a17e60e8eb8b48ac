// What is claimed of the whole library; there is no code here. Read next: specs/Lib.antt, the demands; proofs/Examples.antt, document 01's table
// of proved examples.
#![tactic(auto)]
