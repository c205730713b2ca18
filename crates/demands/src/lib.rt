// No code: document 01's demands, as theorems over the definitions that the promises cite.
#![tactic(auto)]
