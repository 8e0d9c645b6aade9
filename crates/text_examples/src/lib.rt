// Suspended texts by computing: the examples stand in specs/.
#![tactic(auto)]
