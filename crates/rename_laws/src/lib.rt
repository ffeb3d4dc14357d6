// Laws of the table that rename leaves; no function stands here. proofs/ has what moves, in which order it is put, and
// the record then.
#![tactic(auto)]
