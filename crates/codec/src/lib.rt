// What a format is, and how formats are put together: definitions and laws, in specs/. There is no code here.
#![tactic(auto)]
