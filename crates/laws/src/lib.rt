// The laws of the rules: theorems over the definitions of the crate rules, in specs/.
#![tactic(auto)]
