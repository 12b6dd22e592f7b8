// No function: the order's demands as theorems over the definitions that are the calls' contracts. They stand in proofs/; `Lib.antt` there lists them.
#![tactic(auto)]
