ghost use Rattle.books.specs.Relabelling.{StepsCommute};
ghost use Rattle.books.specs.Rows.{FewTurns};

/// Does nothing: that it is proved says that the plain book sees of its keys only how they compare. With every key
/// shown by another kind of key, in which the call's key compares as it did, each call answers and leaves the same.
pub fn plain_steps_follow_the_order<K, L>()
    ensures { StepsCommute K L }
{}

/// Does nothing: that it is proved says that a row's search is over after as many comparisons as the number of its
/// pairs has binary digits.
pub fn row_searches_are_short<K>()
    ensures { FewTurns K }
{}
