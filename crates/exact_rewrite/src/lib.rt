// A configuration that is written again, held against the page to believe; no running code.
#![tactic(auto)]
