#![tactic(auto)]

// What nodes mean to one who walks them: where a node's children and its next sibling stand, and that the brackets around a node are the open
// brackets before its item. On the grammar of crate `nested` alone. It has no code.
