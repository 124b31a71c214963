//! Modules.

use crate::constants::Constant;
use crate::instructions::Block;
use crate::types::{IrType, Name};
use plain_list::Sequence;

/// `%name = type KIND`
#[derive(Drop)]
pub struct TypeDefinition {
    pub name: Name,
    pub kind: IrType,
}

/// `@name = global KIND VALUE`; a `constant` is read as a `global`.
#[derive(Drop)]
pub struct GlobalDefinition {
    pub name: Name,
    pub value: Constant,
}

/// A parameter. In a tree that was read it has a name, its number where the source leaves that out.
#[derive(Drop)]
pub struct Parameter {
    pub kind: IrType,
    pub name: Option<Name>,
}

/// A function's result, which is none for `void`, its name and its parameters: what a `declare` has.
#[derive(Drop)]
pub struct Header {
    pub result: Option<IrType>,
    pub name: Name,
    pub parameters: Sequence<Parameter>,
}

/// What a `define` has.
#[derive(Drop)]
pub struct FunctionDefinition {
    pub header: Header,
    pub blocks: Sequence<Block>,
}

/// A module, each group in the order of the text (Language Reference, "Module Structure").
#[derive(Drop)]
pub struct IrTree {
    pub types: Sequence<TypeDefinition>,
    pub globals: Sequence<GlobalDefinition>,
    pub declares: Sequence<Header>,
    pub functions: Sequence<FunctionDefinition>,
}
