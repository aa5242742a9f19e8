// The laws of a board have no code: they stand in proofs/, and nothing here runs.
#![tactic(auto)]
