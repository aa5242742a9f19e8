// The definition has no code: what is right stands in specs/, and nothing here runs.
#![tactic(auto)]
