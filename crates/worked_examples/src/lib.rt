// No code: document 01's starred examples, gathered under one statement in specs/Starred.antt and proved in proofs/Starred.antt.
#![tactic(auto)]
