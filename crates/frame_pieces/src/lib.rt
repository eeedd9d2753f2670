// Feeding in pieces: no code, only the theorem that any pieces, fed and finished, write what the crate frame_rules
// says.
// The statement is in proofs/Pieces.antt.
#![tactic(auto)]
