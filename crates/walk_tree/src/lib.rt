// The tree of nodes, over any test of a node and any depth limit. There is no code here: the walk of a curve stands in
// the crate `walk_curve`.
#![tactic(auto)]
