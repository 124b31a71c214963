//! Globals by their numbers.
ghost use Rattle.std.specs.Prelude.{◌≡◌, IfOk};
ghost use Rattle.ir_programs.specs.Registers.{global_of as number_of_global};

use ir_programs::is_same;
use ir_tree::module::IrTree;
use std::alloc::AllocError;

/// The number of the global with this name: 0 where there is none.
fn place_of_global(tree: &IrTree, name: &[u8]) -> usize
    ensures { result ≡ number_of_global tree.now name.now }
{
    let globals = tree.globals.as_slice();
    'places: for place in 0..globals.len() {
        if is_same(globals[place].name.text.as_slice(), name) {
            return place;
        }
    }
    0
}

/// The number of the global with this name in 32 bits: a list of more globals is none that memory holds.
pub fn global_number(tree: &IrTree, name: &[u8]) -> Result<u32, AllocError>
    ensures { IfOk result (λ n. n ≡ number_of_global tree.now name.now) }
{
    let place = place_of_global(tree, name);
    if place > u32::MAX as usize {
        return Err(AllocError);
    }
    Ok(place as u32)
}
