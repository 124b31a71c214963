//! What the nodes of a function are made from.
ghost use Rattle.std.specs.Prelude.{◌≡◌};
ghost use Rattle.ir_programs.specs.Locals.{register_names};
ghost use Rattle.ir_programs.specs.Registers.{all_functions};
ghost use Rattle.ir_programs.specs.Texts.{texts};
ghost use Rattle.ir_programs.specs.Uses.{global_names};
ghost use Rattle.tree_nodes.specs.Rooms.{AreRooms-prop};
ghost use Rattle.tree_types.specs.Rooms.{AreRooms};

use ir_tree::layouts::Room;
use ir_tree::module::{FunctionDefinition, IrTree};
use plain_list::Sequence;

/// The tree of a module, the rooms of its types, and the names of its globals and functions by their numbers.
#[derive(Drop)]
pub struct Whole<'a> {
    pub tree: &'a IrTree,
    pub rooms: &'a [Option<Room>],
    pub globals: &'a [Sequence<u8>],
    pub functions: &'a [Sequence<u8>],
    ghost rooms_are: { AreRooms tree.now.types rooms.now } by { AreRooms-prop tree.now.types rooms.now },
    ghost globals_are: { globals.now ≡ texts (global_names tree.now) },
    ghost functions_are: { functions.now ≡ all_functions tree.now },
}

/// A function of a module, and the names of its registers by their numbers.
#[derive(Drop)]
pub struct Scope<'a> {
    pub whole: &'a Whole<'a>,
    pub function: &'a FunctionDefinition,
    pub registers: &'a [Sequence<u8>],
    ghost registers_are: { registers.now ≡ register_names function.now },
}
