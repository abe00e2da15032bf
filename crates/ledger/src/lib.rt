// The meaning of document 01's plane record: its definitions are in specs/, and what follows from them in proofs/. It has no code.
#![tactic(auto)]
