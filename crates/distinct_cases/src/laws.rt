//! What holds of the switches of programs.
ghost use Rattle.distinct_cases.specs.Cases.{CasesAreDistinct};

/// No number of a switch stands twice in the program of a tree.
pub fn resolved_cases_are_distinct()
    ensures { CasesAreDistinct }
{}
