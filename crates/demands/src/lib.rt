// The tester's demands, as theorems about the calls' promises. There is no code here.
#![tactic(auto)]
