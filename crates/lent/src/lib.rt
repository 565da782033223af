// No function: proofs/ has the walks of calls on one bridge of a lent table.
#![tactic(auto)]
