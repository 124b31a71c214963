//! The registers among the names of a function.
ghost use Rattle.std.specs.Prelude.{◌≡◌, IfOk};
ghost use Rattle.ir_programs.specs.Locals as spec;

use crate::locals::Local;
use flat_ir::RegType;
use plain_list::Sequence;
use std::alloc::{AllocError, Global};

/// The types of the registers among names, in their order.
pub fn register_types(alloc: Global, locals: &[Local]) -> Result<Sequence<RegType>, AllocError>
    ensures { IfOk result (λ types. types ≡ spec.types_among locals.now) }
{
    let mut types = Sequence::new(alloc);
    'each: for local in locals {
        if let Some(kind) = local.register {
            types.push(kind)?;
        }
    }
    Ok(types)
}

/// The names of the registers among names, in their order.
pub fn register_names(alloc: Global, locals: &[Local]) -> Result<Sequence<Sequence<u8>>, AllocError>
    ensures { IfOk result (λ names. names ≡ spec.names_among locals.now) }
{
    let mut names = Sequence::new(alloc);
    'each: for local in locals {
        if local.register.is_some() {
            names.push(local.name.text.copy(alloc)?)?;
        }
    }
    Ok(names)
}
