//! The AVL tree by itself, without memory: its definitions, and what is shown of them over every kind of key.

#![tactic(auto)]

ghost use Rattle.avl.specs.Laws.{StaysSound, TreeStepsCommute};

/// Does nothing: that it is proved says that every call keeps a tree balanced and each slot in one place.
pub fn trees_stay_sound<K>()
    ensures { StaysSound K }
{}

/// Does nothing: that it is proved says that what counts of a key is how it compares, and nothing else.
pub fn order_alone_counts<K, L>()
    ensures { TreeStepsCommute K L }
{}
