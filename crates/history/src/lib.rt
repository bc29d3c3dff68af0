// Lists of calls on one frame: the definitions, and the theorem about every list (proofs/Claims.antt). There is no code here; the calls are in
// `history_calls`.
#![tactic(auto)]
