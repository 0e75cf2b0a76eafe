// What the scheduler's state keeps, and the laws that its proofs go by: specs and proofs, and no code.
#![tactic(auto)]
