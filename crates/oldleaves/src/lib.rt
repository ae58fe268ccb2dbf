// No code: what a table gives that the leaves are read from, in slices that hold a well-formed set. Building reads its last level by this, and the
// search fits the leaves by it; it is a crate of its own, so that an edit of a builder rechecks no search.
#![tactic(auto)]
