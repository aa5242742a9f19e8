// The laws have no code: they stand in proofs/, and nothing here runs.
#![tactic(auto)]
