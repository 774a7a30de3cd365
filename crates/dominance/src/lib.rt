// Why the search may look only at the largest sets of jobs that can run in a slot: theorems over start lists, in specs/.
#![tactic(auto)]
