//! The program of a tree without refusals names nothing but its own. It has no code: its one function states the law.
#![tactic(auto)]

ghost use Rattle.whole_programs.specs.Programs.{ProgramIsWhole};

/// Where a tree that was read has no refusal and a main, each global, function, node and register that its program names is
/// the program's, as long as 32 bits number them.
pub fn programs_without_refusals_are_whole()
    ensures whole { ProgramIsWhole }
{}
