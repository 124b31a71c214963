//! What holds of merges.
ghost use Rattle.overwrite_merge.specs.Bases.{MergesAreOfBases};

/// The merge of a suspended state is that of its base, put back into the state.
pub fn merges_are_of_bases()
    ensures { MergesAreOfBases }
{}
