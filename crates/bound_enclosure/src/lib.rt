// The low and the high of a coordinate by the rows, and the laws that they enclose it and how far apart they are. There
// is no code here: that of one coordinate stands in `bound_coordinate`.
#![tactic(auto)]
