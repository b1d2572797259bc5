// The data files that crate `paper` tells without a reader are exactly those that the calls accept, and the rows that they show.
// No running code: proofs/ has data-exactly and its negative halves, and what they say of rows that are written and of a change of kind.
#![tactic(auto)]
