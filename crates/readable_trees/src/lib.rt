//! What a tree that was read has by its grammar. It has no code: its one function states the law.
#![tactic(auto)]

ghost use Rattle.readable_trees.specs.Trees.{TreesAreReadable};

/// In the tree of a module's tokens, with its unnamed things numbered, each integer type has 1 to 64 bits, each instruction that
/// gives a value names its register, and each function has a block.
pub fn trees_that_are_read_are_readable()
    ensures readable { TreesAreReadable }
{}
