//! Types.

ghost use Rattle.std.specs.Prelude.{◌≡◌, map, OnOk};
ghost use Rattle.ir_tree.specs.Pages.{after};
ghost use Rattle.ir_tree.specs.Spelling.{type_tokens, result_tokens, separated};
ghost use Rattle.ir_tree.specs.Spelling as spec;

use super::page::Page;
use crate::constants::Integer;
use crate::types::IrType;
use std::alloc::AllocError;

/// What a struct stands between.
pub fn opening(packed: bool) -> &'static [u8]
    ensures { result.now ≡ spec.opening packed }
{
    if packed { b"<{" } else { b"{" }
}

pub fn closing(packed: bool) -> &'static [u8]
    ensures { result.now ≡ spec.closing packed }
{
    if packed { b"}>" } else { b"}" }
}

/// Puts a type.
#[cycle(types)]
pub fn put_type(page: &mut Page, kind: &IrType) -> Result<(), AllocError>
    ensures { OnOk result (page.new ≡ after page.old (type_tokens kind.now)) }
{
    match kind {
        IrType::Int(width) => page.put_width(*width),
        IrType::Ptr => page.put(b"ptr"),
        IrType::Array {
            at: _,
            len,
            element,
        } => {
            page.put(b"[")?;
            page.put_integer(Integer {
                negative: false,
                magnitude: *len,
            })?;
            page.put(b"x")?;
            put_type(page, element.get())?;
            page.put(b"]")
        }
        IrType::Struct {
            at: _,
            fields,
            packed,
        } => {
            page.put(opening(*packed))?;
            put_types(page, fields.as_slice())?;
            page.put(closing(*packed))
        }
        IrType::Named { name, at: _ } => page.put_local(name.as_slice()),
    }
}

/// Types with commas between them.
#[cycle(types)]
fn put_types(page: &mut Page, kinds: &[IrType]) -> Result<(), AllocError>
    ensures { OnOk result (page.new ≡ after page.old (separated (map type_tokens kinds.now))) }
{
    for (index, kind) in kinds.iter().enumerate() {
        page.put_comma_before(index)?;
        put_type(page, kind)?;
    }
    Ok(())
}

/// Puts a function's result.
pub fn put_result(page: &mut Page, kind: &Option<IrType>) -> Result<(), AllocError>
    ensures { OnOk result (page.new ≡ after page.old (result_tokens kind.now)) }
{
    match kind {
        Some(kind) => put_type(page, kind),
        None => page.put(b"void"),
    }
}
