// The sizes of the tables by which distances are measured.
use task::limits::{FACTS, LABELS};

// A node for each pair of facts.
pub(crate) const NODES: usize = FACTS * FACTS;
// An edge for each label and node.
pub(crate) const EDGES: usize = LABELS * NODES;
