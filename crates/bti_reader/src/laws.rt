//! Laws over the definitions: no call has more than its clause.
ghost use Rattle.bti_reader.specs.Meaning.{SearchesAreMeaning, PathsAreInOrder};
ghost use Rattle.bti_reader.specs.Walks.{WalkIsWhole};
ghost use Rattle.bti_reader.specs.Vectors.{AreSearchVectors};

/// Searches in the trie of a worked row.
pub fn law_vectors()
    ensures { AreSearchVectors }
{}

/// What the searches find where the trie has a meaning.
pub fn law_searches()
    ensures { SearchesAreMeaning }
{}

/// The paths of a trie ascend, and the searches for the next one give them all.
pub fn law_order()
    ensures { PathsAreInOrder }
{}

/// A walk that came to its end has given the whole meaning of the trie, and where there is one a walk gives it.
pub fn law_walk()
    ensures { WalkIsWhole }
{}
