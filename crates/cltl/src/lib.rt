// cLTL+: what clauses mean over runs, the drift rules, and the laws that join them. No code: the definitions are in specs/.
#![tactic(auto)]
