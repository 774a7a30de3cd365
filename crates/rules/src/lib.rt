// The rules: what a job file, a start list and a table mean. All of it is definitions, in specs/.
#![tactic(auto)]
