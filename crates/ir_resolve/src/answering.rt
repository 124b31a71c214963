//! The program of a module (Language Reference, "Module Structure").
ghost use Rattle.std.specs.Prelude.{◌≡◌, None, IsTrue};
ghost use Rattle.ir_programs.specs.Answers.{refusals, has_main as has_main_in};
ghost use Rattle.ir_programs.specs.Programs.{program_of as program_in};
ghost use Rattle.ir_programs.specs.Readable.{is_readable};
ghost use Rattle.ir_programs.specs.Refusals.{first};
ghost use Rattle.ir_resolve.specs.Resolving.{IsAnswer};
ghost use Rattle.tree_types.specs.Rooms.{AreRooms};

use crate::error::ResolveError;
use crate::errors::error_of;
use crate::mains::has_main;
use crate::program::{is_few, program_of};
use crate::told::first_refusal;
use flat_ir::{Program, ProgramData};
use ir_tree::layouts::Room;
use ir_tree::module::IrTree;
use std::alloc::{AllocError, Global};
use tree_types::rooms_of;
use whole_programs::programs_without_refusals_are_whole;

/// The program with these parts, unless 32 bits don't number them.
#[tactic(auto, using(crate::proofs::Concluding::resolved_as))]
fn made(alloc: Global, tree: &IrTree, parts: ProgramData) -> Result<Program, ResolveError>
    requires readable { IsTrue (is_readable tree.now) }
    requires unrefused { first (refusals tree.now) ≡ None }
    requires main { IsTrue (has_main_in tree.now) }
    requires parts { parts ≡ program_in tree.now }
    ensures { IsAnswer tree.now result }
{
    if !is_few(&parts) {
        return Err(ResolveError::Memory);
    }
    programs_without_refusals_are_whole();
    match Program::new(alloc, parts) {
        Ok(program) => Ok(program),
        Err(AllocError) => Err(ResolveError::Memory),
    }
}

/// The program of a tree without refusals.
#[tactic(auto, using(crate::proofs::Concluding::no_main))]
fn unrefused(alloc: Global, tree: &IrTree, rooms: &[Option<Room>]) -> Result<Program, ResolveError>
    requires rooms { AreRooms tree.now.types rooms.now }
    requires readable { IsTrue (is_readable tree.now) }
    requires unrefused { first (refusals tree.now) ≡ None }
    ensures { IsAnswer tree.now result }
{
    if !has_main(tree) {
        return Err(ResolveError::NoMain);
    }
    match program_of(alloc, tree, rooms) {
        Ok(parts) => made(alloc, tree, parts),
        Err(AllocError) => Err(ResolveError::Memory),
    }
}

#[tactic(auto, using(crate::proofs::Concluding::refused_as))]
fn with_rooms(alloc: Global, tree: &IrTree, rooms: &[Option<Room>]) -> Result<Program, ResolveError>
    requires rooms { AreRooms tree.now.types rooms.now }
    requires readable { IsTrue (is_readable tree.now) }
    ensures { IsAnswer tree.now result }
{
    match first_refusal(alloc, tree, rooms) {
        Ok(Some(refusal)) => Err(error_of(alloc, tree, refusal)),
        Ok(None) => unrefused(alloc, tree, rooms),
        Err(AllocError) => Err(ResolveError::Memory),
    }
}

/// The program of a tree that was read: it has no refusal and a main.
///
/// # Errors
/// The first refusal in the order of the text, and at one place in the order of the causes; `NoMain` where there is none and no
/// function is called main; and `Memory`.
pub fn resolve(alloc: Global, tree: &IrTree) -> Result<Program, ResolveError>
    requires readable { IsTrue (is_readable tree.now) }
    ensures answer { IsAnswer tree.now result }
{
    match rooms_of(alloc, tree.types.as_slice()) {
        Ok(rooms) => with_rooms(alloc, tree, rooms.as_slice()),
        Err(AllocError) => Err(ResolveError::Memory),
    }
}
