// An event goes from one state to another, and the line that says so is logged: a node, the anchors of a media, a media with
// its anchors. Each function is lent the groups of events that it may change, with the log slice; it states what stands in them after
// it for every run in which they stood before. The working record, in which they stand, is of a crate above; a struct of lent parts would
// be made anew for each call.
#![tactic(auto)]

pub mod anchors;
pub mod media;
pub mod node;
