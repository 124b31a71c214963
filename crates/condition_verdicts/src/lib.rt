//! What the verdict on the clauses of a condition says of the inputs that meet it.
#![tactic(auto)]

ghost use Rattle.std.specs.Prelude.{◌≡◌, ◌≢◌, ◌≤◌, ℕ, Bool, true, false, List, All, length};
ghost use Rattle.cnf.specs.declared.Lit.{Lit};
ghost use Rattle.gates.specs.Clauses.{inputs_of};
ghost use Rattle.search.specs.Verdict.{is_model, is_refuted, is_spent};
ghost use Rattle.terms.specs.Tree.{Tree};
ghost use Rattle.terms.specs.Value.{are_met_by};
ghost use Rattle.term_bits.specs.Conditions.{IsConjunct, condition_bits};
ghost use Rattle.condition_verdicts.specs.Inputs.{condition_verdict, found_input, IsAtMostInput};

/// A model names an input that meets the condition, the least of all that do. Where the search is
/// refuted, no input meets it. A condition that reads at most two bytes of input is decided by a
/// budget of 65,537.
pub fn verdicts_decide_conditions()
    ensures met { (c : List Tree) (budget : ℕ) (values : List Bool) → All IsConjunct c
        → condition_verdict c budget ≡ is_model values → are_met_by (found_input c values) c ≡ true }
    ensures least { (c : List Tree) (budget : ℕ) (values : List Bool) (bytes : List ℕ) → All IsConjunct c
        → condition_verdict c budget ≡ is_model values → are_met_by bytes c ≡ true → IsAtMostInput (found_input c values) bytes }
    ensures none { (c : List Tree) (budget : ℕ) (log : List (List Lit)) (bytes : List ℕ) → All IsConjunct c
        → condition_verdict c budget ≡ is_refuted log → are_met_by bytes c ≡ false }
    ensures decided { (c : List Tree) (budget : ℕ) → length (inputs_of (condition_bits c)) ≤ 16 → 65537 ≤ budget
        → condition_verdict c budget ≢ is_spent }
{}
