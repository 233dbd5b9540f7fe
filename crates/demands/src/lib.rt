// The demands on the whole, as theorems: in specs/. There is no code here.
#![tactic(auto)]
