// Edits on the tree: their definitions are in specs/, their laws in proofs/; the code that makes them is in tree_edit.
#![tactic(auto)]
