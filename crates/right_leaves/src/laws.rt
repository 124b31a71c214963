//! What holds of every exploration in which no call is skipped.
ghost use Rattle.std.specs.Prelude.{◌≡◌, ◌≤◌, ℕ, List, length};
ghost use Rattle.terms.specs.Tree.{Tree};
ghost use Rattle.sym_states.specs.Verdicts.{Sat};
ghost use Rattle.state_sides.specs.Views.{verdict_by};
ghost use Rattle.right_leaves.specs.Right.{AreRightVerdicts, LeavesAreRight, DecidedLeavesAreRight};

/// The leaves of an exploration in which no call is skipped split the inputs, each is sound, and what
/// each keeps is the least input that meets its condition, where verdicts are right.
pub fn leaves_are_right()
    ensures { LeavesAreRight }
{}

/// So do the leaves of a program that passed its checks, where verdicts are decided by a budget of
/// conflicts.
pub fn decided_leaves_are_right()
    ensures { DecidedLeavesAreRight }
{}

/// Verdicts that are decided over at most 64 bytes of input are right, and give as many bytes.
pub fn verdicts_are_right()
    ensures right { (budget n : ℕ) → n ≤ 64 → AreRightVerdicts (verdict_by budget) n }
    ensures size { (budget : ℕ) (condition : List Tree) (n : ℕ) (input : List ℕ) → n ≤ 64
        → verdict_by budget condition n ≡ Sat input → length input ≡ n }
{}
