// What a check answers: it passes, or refuses with one of document 01's numbers.
#![tactic(auto)]

// Ok where the check passes. A check behind another one stands behind its `?`.
pub type Judged = Result<(), model::Refusal>;
