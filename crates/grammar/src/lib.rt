// The grammar of a rule sheet: definitions and laws, and no code.
#![tactic(auto)]
