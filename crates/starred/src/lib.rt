// The starred cases of the scope, settled by one computation. There is no code: the program cases runs them.
#![tactic(auto)]
