// Clauses on a plan that is moved on: its run in step is the suffix of the plan's. No code: the claim is in specs/.
#![tactic(auto)]
