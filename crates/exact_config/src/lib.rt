// No running code: proofs/ has for each line of a configuration that its rule says values exactly when the line is one that says them, as crate `paper` tells it, and from it config-exactly:
// a configuration is accepted, and shows c, exactly when its bytes are a `Configuration` that shows c; and first-fault: one that is refused for a line first fails at the line that is told.
#![tactic(auto)]
