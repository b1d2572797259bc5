// What a configuration, its lines and fields, and a data file are, told without a reader: the page to hold against the rules.
// No running code, and no proofs: specs/Configuration.antt is to be read first, then Data, Written, Lines and Fields, and for refusals Order.
// Crates `exact`, `exact_config` and `exact_data` have their laws, crate `demands` the theorems on the calls.
#![tactic(auto)]
