// General laws of lists, tests and words of slots. No code: specs/ has the definitions, proofs/ the laws.
#![tactic(auto)]
