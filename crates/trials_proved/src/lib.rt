// Document 01's trials P1 to P8, proved of the definitions: see proofs/Table.antt.
#![tactic(auto)]
