// The examples at the limits have no code: they stand in specs/, apart from the definition because they take long to evaluate.
#![tactic(auto)]
