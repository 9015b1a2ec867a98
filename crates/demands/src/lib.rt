// The reviewer's demands. No code: specs/ states what the parts promise together, proofs/ proves it.
#![tactic(auto)]
