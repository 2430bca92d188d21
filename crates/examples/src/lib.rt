// Document 01's worked examples as theorems: specs/ holds them all.
#![tactic(auto)]
