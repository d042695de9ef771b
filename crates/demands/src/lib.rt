// demands: the demands as theorems over what the firmware calls from C, by what the calls promise and not by their code. It holds definitions
// (specs/) and theorems (proofs/) alone: a chain of C calls is a chain of the calls below it, and the answers that it leads to are the rules'.
#![tactic(auto)]
