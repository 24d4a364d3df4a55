// The command program's stream, as definitions alone until the store runs: see specs/.
#![tactic(auto)]
