// What change request #105 reports is defined in specs/Least.antt, and what a call needs of the limit in
// specs/Need.antt; proofs/ has what holds of both. No function stands here.
#![tactic(auto)]
