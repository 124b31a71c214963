//! Lines, and the text of a module.
#![tactic(auto, using(crate::proofs::Writing::after_append))]

ghost use Rattle.std.specs.Prelude.{◌≡◌, ◌++◌, map, OnOk, IfOk};
ghost use Rattle.ir_tree.specs.Pages.{after};
ghost use Rattle.ir_tree.specs.Printing.{name_tokens, header_tokens, line_text, text_of, label_lines, block_lines, blocks_lines, function_lines, functions_lines, printed};
ghost use Rattle.ir_tree.specs.Printing as spec;

use super::instructions::{put_instruction, put_phi, put_terminator};
use super::operands::put_constant;
use super::page::Page;
use super::spelled::{Spelled, put_separated};
use super::types::{put_result, put_type};
use crate::instructions::{Block, Instruction, Phi, Terminator};
use crate::module::{
    FunctionDefinition, GlobalDefinition, Header, IrTree, Parameter, TypeDefinition,
};
use crate::types::Name;
use std::alloc::{AllocError, Global};

/// What is printed as one line.
trait Lined {
    ghost use Rattle.ir_tree.specs.Printing.{Line};

    ghost line: { Self → Line };

    fn put_line(&self, page: &mut Page) -> Result<(), AllocError>
        ensures { OnOk result (page.new.text ≡ page.old.text ++ line_text (line self.now)) };
}

/// One line behind the other.
fn put_lines<T: Lined>(page: &mut Page, items: &[T]) -> Result<(), AllocError>
    ensures { OnOk result (page.new.text ≡ page.old.text ++ text_of (map T.line items.now)) }
{
    for item in items {
        item.put_line(page)?;
    }
    Ok(())
}

impl Lined for TypeDefinition {
    ghost use Rattle.ir_tree.specs.Printing.{type_line};

    ghost line = { type_line };

    fn put_line(&self, page: &mut Page) -> Result<(), AllocError> {
        page.begin_line(false)?;
        page.put_local(self.name.text.as_slice())?;
        page.put(b"=")?;
        page.put(b"type")?;
        put_type(page, &self.kind)?;
        page.end_line()
    }
}

impl Lined for GlobalDefinition {
    ghost use Rattle.ir_tree.specs.Printing.{global_line};

    ghost line = { global_line };

    fn put_line(&self, page: &mut Page) -> Result<(), AllocError> {
        page.begin_line(false)?;
        page.put_global(self.name.text.as_slice())?;
        page.put(b"=")?;
        page.put(b"global")?;
        put_constant(page, &self.value)?;
        page.end_line()
    }
}

fn put_name(page: &mut Page, name: &Option<Name>) -> Result<(), AllocError>
    ensures { OnOk result (page.new ≡ after page.old (name_tokens name.now)) }
{
    match name {
        Some(name) => page.put_local(name.text.as_slice()),
        None => Ok(()),
    }
}

impl Spelled for Parameter {
    ghost use Rattle.ir_tree.specs.Printing.{parameter_tokens};

    ghost tokens = { parameter_tokens };

    fn put_on(&self, page: &mut Page) -> Result<(), AllocError> {
        put_type(page, &self.kind)?;
        put_name(page, &self.name)
    }
}

fn put_header(page: &mut Page, header: &Header) -> Result<(), AllocError>
    ensures { OnOk result (page.new ≡ after page.old (header_tokens header.now)) }
{
    put_result(page, &header.result)?;
    page.put_global(header.name.text.as_slice())?;
    page.put(b"(")?;
    put_separated(page, header.parameters.as_slice())?;
    page.put(b")")
}

impl Lined for Header {
    ghost use Rattle.ir_tree.specs.Printing.{declare_line};

    ghost line = { declare_line };

    fn put_line(&self, page: &mut Page) -> Result<(), AllocError> {
        page.begin_line(false)?;
        page.put(b"declare")?;
        put_header(page, self)?;
        page.end_line()
    }
}

fn put_label(page: &mut Page, label: &Option<Name>) -> Result<(), AllocError>
    ensures { OnOk result (page.new.text ≡ page.old.text ++ text_of (label_lines label.now)) }
{
    match label {
        Some(name) => page.put_label_line(name.text.as_slice()),
        None => Ok(()),
    }
}

impl Lined for Phi {
    ghost use Rattle.ir_tree.specs.Printing.{phi_line};

    ghost line = { phi_line };

    fn put_line(&self, page: &mut Page) -> Result<(), AllocError> {
        page.begin_line(true)?;
        put_phi(page, self)?;
        page.end_line()
    }
}

impl Lined for Instruction {
    ghost use Rattle.ir_tree.specs.Printing.{instruction_line};

    ghost line = { instruction_line };

    fn put_line(&self, page: &mut Page) -> Result<(), AllocError> {
        page.begin_line(true)?;
        put_instruction(page, self)?;
        page.end_line()
    }
}

impl Lined for Terminator {
    ghost use Rattle.ir_tree.specs.Printing.{terminator_line};

    ghost line = { terminator_line };

    fn put_line(&self, page: &mut Page) -> Result<(), AllocError> {
        page.begin_line(true)?;
        put_terminator(page, &self.form)?;
        page.end_line()
    }
}

/// The lines of a block.
fn put_block(page: &mut Page, block: &Block) -> Result<(), AllocError>
    ensures { OnOk result (page.new.text ≡ page.old.text ++ text_of (block_lines block.now)) }
{
    put_label(page, &block.label)?;
    put_lines(page, block.phis.as_slice())?;
    put_lines(page, block.instructions.as_slice())?;
    block.terminator.put_line(page)
}

fn put_blocks(page: &mut Page, blocks: &[Block]) -> Result<(), AllocError>
    ensures { OnOk result (page.new.text ≡ page.old.text ++ text_of (blocks_lines blocks.now)) }
{
    for block in blocks {
        put_block(page, block)?;
    }
    Ok(())
}

/// The line that a function begins with.
fn put_define(page: &mut Page, header: &Header) -> Result<(), AllocError>
    ensures { OnOk result (page.new.text ≡ page.old.text ++ line_text (spec.define_line header.now)) }
{
    page.begin_line(false)?;
    page.put(b"define")?;
    put_header(page, header)?;
    page.put(b"{")?;
    page.end_line()
}

/// The line that a function ends with.
fn put_close(page: &mut Page) -> Result<(), AllocError>
    ensures { OnOk result (page.new.text ≡ page.old.text ++ line_text spec.close_line) }
{
    page.begin_line(false)?;
    page.put(b"}")?;
    page.end_line()
}

/// The lines of a function.
fn put_function(page: &mut Page, function: &FunctionDefinition) -> Result<(), AllocError>
    ensures { OnOk result (page.new.text ≡ page.old.text ++ text_of (function_lines function.now)) }
{
    put_define(page, &function.header)?;
    put_blocks(page, function.blocks.as_slice())?;
    put_close(page)
}

fn put_functions(page: &mut Page, functions: &[FunctionDefinition]) -> Result<(), AllocError>
    ensures { OnOk result (page.new.text ≡ page.old.text ++ text_of (functions_lines functions.now)) }
{
    for function in functions {
        put_function(page, function)?;
    }
    Ok(())
}

fn put_module(page: &mut Page, tree: &IrTree) -> Result<(), AllocError>
    ensures { OnOk result (page.new.text ≡ page.old.text ++ printed tree.now) }
{
    put_lines(page, tree.types.as_slice())?;
    put_lines(page, tree.globals.as_slice())?;
    put_lines(page, tree.declares.as_slice())?;
    put_functions(page, tree.functions.as_slice())
}

/// The text of a tree: its types, globals, declares and functions, each group in order.
///
/// # Errors
///
/// Only where memory runs out.
pub fn print(alloc: Global, tree: &IrTree) -> Result<Vec<u8>, AllocError>
    ensures { IfOk result (λ text. text.items ≡ printed tree.now) }
{
    let mut page = Page::new(alloc);
    put_module(&mut page, tree)?;
    Ok(page.into_text())
}
