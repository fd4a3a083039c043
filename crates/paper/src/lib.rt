// No code: specs/ is the office's paper, document 01, as definitions in its own order and words, and proofs/ has its laws.
#![tactic(auto)]
