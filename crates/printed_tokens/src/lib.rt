//! What is printed is lexed as its tokens. It has no code: its one function states it of every tree.
#![tactic(auto)]

ghost use Rattle.printed_tokens.specs.Lexed.{IsLexedAgain};

/// The text that a tree is printed as has the tokens that it was printed with.
pub fn what_is_printed_is_lexed_again()
    ensures { IsLexedAgain }
{}
