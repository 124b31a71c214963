//! The grammar of a module's text: definitions, and the proof that each production is exact. It has no code: its one
//! function states what the grammar says of every list of tokens.
#![tactic(auto)]

ghost use Rattle.ir_grammar.specs.Laws.{HasOneTree, IsDecided, IsNotBoth, IsRefusedOnce};

/// Every list of tokens is a module with one tree, or it is refused at one place; it is never both.
pub fn each_text_is_decided()
    ensures one_tree { HasOneTree }
    ensures decided { IsDecided }
    ensures not_both { IsNotBoth }
    ensures refused_once { IsRefusedOnce }
{}
