// The search over places finds the best start list: theorems alone, in specs/.
#![tactic(auto)]
