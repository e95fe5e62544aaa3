// What is proved of two securities in one book. No function is here.
#![tactic(auto)]
