// The lettered cases of document 01 (the board): the table is in specs/Board.antt, the proof over its rows in proofs/Right.antt.
#![tactic(auto)]
