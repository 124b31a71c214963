//! Where the types of a function don't fit.
ghost use Rattle.std.specs.Prelude.{◌≡◌, IfOk};
ghost use Rattle.ir_programs.specs.Fits as spec;

use crate::calls::push_blocks;
use crate::marked::where_false;
use crate::sets::push_edges;
use crate::values::Place;
use flat_ir::NodeId;
use ir_programs::{locals_of, register_names, register_types};
use ir_tree::module::{FunctionDefinition, IrTree};
use plain_list::Sequence;
use std::alloc::{AllocError, Global};

/// For each node of a function whether its types fit.
fn tests_of(alloc: Global, place: &Place) -> Result<Vec<bool>, AllocError>
    ensures { IfOk result (λ tests. tests.items ≡ spec.fits_of place.now.tree.now place.now.function.now) }
{
    let mut tests = Vec::new(alloc);
    let blocks = place.function.blocks.as_slice();
    push_blocks(alloc, &mut tests, place, blocks)?;
    push_edges(&mut tests, place, blocks)?;
    Ok(tests)
}

fn clashes_in(alloc: Global, place: &Place) -> Result<Sequence<NodeId>, AllocError>
    ensures { IfOk result (λ nodes. nodes ≡ spec.clashes_of place.now.tree.now place.now.function.now) }
{
    let tests = tests_of(alloc, place)?;
    where_false(alloc, tests.as_slice())
}

/// The nodes of a function of the module at which a type as it is written doesn't fit: a value has another, a call's are not
/// its callee's, or an index of a pointer steps into no part of the type.
pub fn clashes_of(
    alloc: Global,
    tree: &IrTree,
    function: &FunctionDefinition,
) -> Result<Sequence<NodeId>, AllocError>
    ensures { IfOk result (λ nodes. nodes ≡ spec.clashes_of tree.now function.now) }
{
    let locals = locals_of(alloc, function)?;
    let names = register_names(alloc, locals.as_slice())?;
    let types = register_types(alloc, locals.as_slice())?;
    let place = Place {
        tree,
        function,
        names: names.as_slice(),
        types: types.as_slice(),
    };
    clashes_in(alloc, &place)
}
