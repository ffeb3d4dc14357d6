// What change request #102 shows is defined in specs/Names.antt, and what holds of it is proved in proofs/.
// No function stands here.
#![tactic(auto)]
