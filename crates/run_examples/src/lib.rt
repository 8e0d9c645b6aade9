// Runs and refusals by computing: the examples stand in specs/.
#![tactic(auto)]
