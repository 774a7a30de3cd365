// The cases of document 01, "Gates on paper", stated of the rules: one table and one theorem over it, in specs/.
#![tactic(auto)]
