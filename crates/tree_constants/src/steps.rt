//! Steps of constant pointers.
ghost use Rattle.std.specs.Prelude.{◌≡◌};
ghost use Rattle.std.specs.Option.{option_to_list};
ghost use Rattle.ir_programs.specs.Causes.{is_empty};
ghost use Rattle.ir_programs.specs.Constants as spec;

use ir_tree::constants::{ConstGep, ConstIndex};
use ir_tree::module::TypeDefinition;
use ir_tree::types::IrType;
use tree_types::{head_of, step_into};

/// Whether each index of a constant pointer steps into a part of the type.
pub fn gep_steps_fit(types: &[TypeDefinition], gep: &ConstGep) -> bool
    ensures { result ≡ is_empty (spec.bad_gep_steps types.now gep.now) }
{
    let levels = gep.levels.as_slice();
    for level in levels {
        if bad_step(types, &level.source, level.indices.as_slice()).is_some() {
            return false;
        }
    }
    true
}

/// The place of the index that steps into no part. The first one steps over whole values of the type.
pub fn bad_step(types: &[TypeDefinition], source: &IrType, indices: &[ConstIndex]) -> Option<u32>
    ensures { option_to_list result ≡ spec.bad_after_first types.now source.now indices.now }
{
    match indices.split_first() {
        Some((_, rest)) => step_within(types, source, rest),
        None => None,
    }
}

fn step_within<'a>(
    types: &'a [TypeDefinition],
    kind: &'a IrType,
    indices: &[ConstIndex],
) -> Option<u32>
    ensures { option_to_list result ≡ spec.bad_steps types.now kind.now indices.now }
{
    let mut part = kind;
    'steps: for index in indices {
        match step_into(head_of(types, part), &index.value) {
            Some(inner) => {
                part = inner;
            }
            None => {
                return Some(index.at);
            }
        }
    }
    None
}
