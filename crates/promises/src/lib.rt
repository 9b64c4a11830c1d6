// What holds across the crates. There is nothing to run: specs/ has the statements, and proofs/ the proofs.
#![tactic(auto)]
