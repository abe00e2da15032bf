// The meaning of runs of frames (document 02, request 1): its definitions are in specs/, and what follows from them in proofs/. It has no code.
#![tactic(auto)]
