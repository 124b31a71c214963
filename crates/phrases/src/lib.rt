//! Phrases of a grammar in combinators that carry what they derive, what a reader with one token in sight gives, and the
//! laws that tie the two. It has no code and knows no language: a grammar is written in `specs/Phrase.antt`'s words, and the
//! lemmas of `proofs/Combinators.antt` prove it exact.
#![tactic(auto)]
