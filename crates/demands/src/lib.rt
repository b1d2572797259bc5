// The demands on the loader as theorems on what its calls answer and leave in their buffers; docs/DEMANDS.md lists them.
// No running code: proofs/Configurations.antt, Data.antt, Missing.antt, Rewritten.antt, NoDate.antt, Calls.antt, Exported.antt and Absent.antt have the demands,
// Placed.antt the places of refusals, Recording.antt the rules' recording, Wrong.antt the wrong programs, Vectors.antt T1 to T12 as one list.
#![tactic(auto)]
