// The rows of 'Worked on paper' that document 01 marks with *: a table in specs/, and one claim that covers it in proofs/; and so for rows of
// document 02 (f).
#![tactic(auto)]
