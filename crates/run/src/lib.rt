// How a function runs, and that optimized functions run alike.
#![tactic(auto)]
