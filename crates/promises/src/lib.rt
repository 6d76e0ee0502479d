// What is promised to those who call, said a second time by a caller: one for every operation and every exported
// function. Each caller asks nothing of its arguments, promises in full what it calls promises, and is proved from that
// contract alone. So an operation that came to ask something of those who call, or to promise less, is refused here.
// `station` is one more, who reads the list that the bench station leaves. Nothing calls these functions, and no
// program links them.
#![tactic(auto)]

pub mod exported;
pub mod operations;
pub mod station;
