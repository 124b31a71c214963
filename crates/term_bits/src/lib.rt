//! The bits of terms.
#![tactic(auto)]

ghost use Rattle.std.specs.Prelude.{◌≡◌, ◌↔◌, ◌<◌, ◌*◌, ℕ, Bool, true, List, All, length};
ghost use Rattle.std.specs.List.{list_any};
ghost use Rattle.cnf.specs.Models.{Solves};
ghost use Rattle.gates.specs.Bits.{IsFolded, Meets};
ghost use Rattle.gates.specs.Clauses.{occurs, clauses_of};
ghost use Rattle.gates.specs.Meaning.{IsCondition, HasModelWith};
ghost use Rattle.rows.specs.Numbers.{read};
ghost use Rattle.terms.specs.Tree.{Tree, IsTree, width_of};
ghost use Rattle.terms.specs.Value.{value_of, are_met_by, ReadsBelow};
ghost use Rattle.term_bits.specs.TermBits.{bits_of, input_of};
ghost use Rattle.term_bits.specs.Conditions.{IsConjunct, condition_bits, bytes_of, input_in};

/// A term has as many bits as it is wide, and under every input they are the number that is its
/// value.
pub fn bits_have_the_value()
    ensures places { (t : Tree) → IsTree t → length (bits_of t) ≡ width_of t }
    ensures value { (t : Tree) (bytes : List ℕ) → IsTree t → read (input_of bytes) (bits_of t) ≡ (value_of t bytes).bits }
{}

/// The bits of a term are folded, and read bits of those input bytes alone that the term reads.
pub fn bits_are_folded()
    ensures folded { (t : Tree) → IsTree t → All IsFolded (bits_of t) }
    ensures in_range { (t : Tree) (count k : ℕ) → ReadsBelow count t → list_any (occurs k) (bits_of t) ≡ true → k < 8 * count }
{}

/// An input meets a condition of terms exactly where it meets its bits, which have clauses.
pub fn bits_are_a_condition()
    ensures condition { (c : List Tree) → All IsConjunct c → IsCondition (condition_bits c) }
    ensures met { (c : List Tree) (bytes : List ℕ) → All IsConjunct c → (are_met_by bytes c ≡ true) ↔ Meets (input_of bytes) (condition_bits c) }
{}

/// An input meets a condition of terms exactly where the clauses of its bits have a model with the
/// bits of this input.
pub fn clauses_say_which_inputs_meet()
    ensures { (c : List Tree) (bytes : List ℕ) → All IsConjunct c
        → (are_met_by bytes c ≡ true) ↔ HasModelWith (condition_bits c) (input_of bytes) }
{}

/// Any bits for 64 bytes are the bits of the bytes made of them.
pub fn bytes_have_the_bits()
    ensures size { (i : ℕ → Bool) → length (bytes_of i) ≡ 64 }
    ensures bytes { (i : ℕ → Bool) → All (λ b. b < 256) (bytes_of i) }
    ensures bits { (i : ℕ → Bool) (k : ℕ) → k < 512 → input_of (bytes_of i) k ≡ i k }
{}

/// The input that a model of the clauses names meets the condition.
pub fn models_are_inputs_that_meet()
    ensures { (c : List Tree) (v : ℕ → Bool) → All IsConjunct c
        → Solves v (clauses_of (condition_bits c)) → are_met_by (input_in (condition_bits c) v) c ≡ true }
{}
