// What the program answers to a text, and demand 3 from the bytes of a text to those of its answer. There is no code
// here: that of the answer stands in the crate `answer`.
#![tactic(auto)]
