// A day of the frame program: no code, only what its lines inherit from demand 3. Statements are in proofs/Day.antt.
#![tactic(auto)]
