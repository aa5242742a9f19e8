// The examples of a board in whole buffers have no code: they stand in specs/, apart because they take long to evaluate.
#![tactic(auto)]
