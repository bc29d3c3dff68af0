// The scope paper's worked cases, as a table that is proved about the definitions (proofs/Worked.antt). There is no code here.
#![tactic(auto)]
