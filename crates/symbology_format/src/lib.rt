// The formats of a symbology and its rows: definitions and laws, in specs/. There is no code here.
#![tactic(auto)]
