// What a plan can be trusted for, proved of the definition. No code.
#![tactic(auto)]
