//! What holds of explorations.
ghost use Rattle.std.specs.Prelude.{◌≡◌, ℕ, List, [], ◌∷◌, Some};
ghost use Rattle.leaves.specs.Events.{Leaf};
ghost use Rattle.sym_states.specs.Exploring.{Setting, first_state, Reaches, Explores};
ghost use Rattle.sym_states.specs.Running.{evaluate};
ghost use Rattle.sym_states.specs.Splitting.{TestsSplit};
ghost use Rattle.sym_states.specs.States as states;
ghost use Rattle.sym_states.specs.States.{State, Step};

/// What is computed of a setting within a bound is what it explores.
pub fn computed_leaves_are_explored()
    ensures { (n : ℕ) (e : Setting) (leaves : List Leaf) (tasks : ℕ)
        → evaluate n e (states.Go (first_state e) ∷ []) ≡ Some (record { lists = leaves ∷ []; tasks = tasks })
        → Explores e leaves tasks }
{}

/// An input that meets the condition of a state meets that of exactly one child of a test.
pub fn tests_split_inputs()
    ensures { TestsSplit }
{}

/// What a state reaches by attempts is one thing.
pub fn attempts_reach_one_answer()
    ensures { (e : Setting) (s : State) (a b : Step) → Reaches e s a → Reaches e s b → a ≡ b }
{}
