// Theorems about whole calls, in specs/: there is no code here.
#![tactic(auto)]
