// No function: proofs/ has what proofs by hand go through, whatever the function is over.
#![tactic(auto)]
