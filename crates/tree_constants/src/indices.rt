//! Indices of constant pointers that don't fit their own widths.
ghost use Rattle.std.specs.Prelude.{◌≡◌, ◌∷◌, List};
ghost use Rattle.std.specs.List.{flat_map};
ghost use Rattle.ir_tree.specs.declared.constants.ConstIndex.{ConstIndex};
ghost use Rattle.ir_programs.specs.declared.refusals.Cause.TheVariants.{BadInitialiser};
ghost use Rattle.tree_constants.specs.Telling.{told_at, wide_among};

use crate::numbers::is_of_width;
use crate::telling::noted_unless;
use ir_programs::{Cause, Refusal};
use ir_tree::constants::{ConstIndex, GepLevel};

fn index_told(told: Option<Refusal>, index: &ConstIndex) -> Option<Refusal>
    ensures { (rest : List ConstIndex) → told_at BadInitialiser result (wide_among rest) ≡ told_at BadInitialiser told (wide_among (index.now ∷ rest)) }
{
    let fits = is_of_width(index.width, index.value);
    noted_unless(told, fits, Cause::BadInitialiser, index.at)
}

fn level_told(told: Option<Refusal>, indices: &[ConstIndex]) -> Option<Refusal>
    ensures { result ≡ told_at BadInitialiser told (wide_among indices.now) }
{
    let mut now = told;
    for one in indices {
        now = index_told(now, one);
    }
    now
}

/// What is told once the indices of a constant pointer's levels are to fit their own widths.
pub fn indices_told(told: Option<Refusal>, levels: &[GepLevel]) -> Option<Refusal>
    ensures { result ≡ told_at BadInitialiser told (flat_map (λ l. wide_among l.indices) levels.now) }
{
    let mut now = told;
    for level in levels {
        now = level_told(now, level.indices.as_slice());
    }
    now
}
