//! The numbers of what a function leaves unnamed: parameters, blocks and results share one counter, in the order of the text.

ghost use Rattle.std.specs.Prelude.{◌≡◌, ◌+◌, map, IfOk};
ghost use Rattle.std.specs.Fmt.{decimal};
ghost use Rattle.ir_grammar.specs.Numbering as spec;
ghost use Rattle.reader_numbering.specs.Numbered.{numbered_block as block_in};

use ir_tree::instructions::{Block, Instruction, Operation, Phi};
use ir_tree::module::{FunctionDefinition, Header, IrTree, Parameter};
use ir_tree::types::Name;
use plain_list::Sequence;
use reader_words::words::are_digits;
use std::alloc::{AllocError, Global};

// ---- the counter

/// One more. No tree in memory has so many names that 64 bits are too few; then it is want of memory.
fn next(counter: u64) -> Result<u64, AllocError>
    ensures { IfOk result (λ n. n ≡ counter + 1) }
{
    counter.checked_add(1).ok_or(AllocError)
}

/// Whether a name is digits alone.
fn is_number(text: &[u8]) -> bool
    ensures { result ≡ spec.is_number text.now }
{
    !text.is_empty() && are_digits(text)
}

/// The counter after a name that is written.
fn counted(counter: u64, name: &Name) -> Result<u64, AllocError>
    ensures { IfOk result (λ n. n ≡ spec.counted counter name.now) }
{
    if is_number(name.text.as_slice()) {
        next(counter)
    } else {
        Ok(counter)
    }
}

/// The counter's number as a name.
fn number(alloc: Global, at: u32, counter: u64) -> Result<Name, AllocError>
    ensures { IfOk result (λ name. name ≡ record { text = decimal counter; at = at }) }
{
    let text = counter.to_string(alloc)?;
    let text = Sequence::from_vec(text.into_bytes());
    Ok(Name { text, at })
}

/// The name, or the counter's number where it is left out, and the counter after it.
fn numbered_name(
    alloc: Global,
    at: u32,
    counter: u64,
    name: Option<Name>,
) -> Result<(Name, u64), AllocError>
    ensures { IfOk result (λ x. x ≡ spec.numbered_name at counter name) }
{
    match name {
        Some(name) => {
            let after = counted(counter, &name)?;
            Ok((name, after))
        }
        None => {
            let name = number(alloc, at, counter)?;
            let after = next(counter)?;
            Ok((name, after))
        }
    }
}

// ---- parameters

/// Parameters with their numbers, and the counter after them.
fn numbered_parameters(
    alloc: Global,
    at: u32,
    first: u64,
    parameters: Sequence<Parameter>,
) -> Result<(Sequence<Parameter>, u64), AllocError>
    ensures { IfOk result (λ x. x ≡ spec.numbered_parameters at first parameters) }
{
    let mut found = Sequence::new(alloc);
    let mut counter = first;
    for parameter in parameters.into_vec() {
        let Parameter { kind, name } = parameter;
        let (name, after) = numbered_name(alloc, at, counter, name)?;
        let name = Some(name);
        found.push(Parameter { kind, name })?;
        counter = after;
    }
    Ok((found, counter))
}

// ---- blocks

/// The counter after phis.
fn after_phis(first: u64, phis: &[Phi]) -> Result<u64, AllocError>
    ensures { IfOk result (λ n. n ≡ spec.after_phis first phis.now) }
{
    let mut counter = first;
    for phi in phis {
        counter = counted(counter, &phi.result)?;
    }
    Ok(counter)
}

/// Whether an operation has a result: all but a store and a call of a void function.
fn has_result(operation: &Operation) -> bool
    ensures { result ≡ spec.has_result operation.now }
{
    match operation {
        Operation::Store { .. } => false,
        Operation::Call { result: None, .. } => false,
        _ => true,
    }
}

/// The name that an instruction sets, and the counter after it.
fn numbered_result(
    alloc: Global,
    at: u32,
    counter: u64,
    name: Option<Name>,
    has: bool,
) -> Result<(Option<Name>, u64), AllocError>
    ensures { IfOk result (λ x. x ≡ spec.numbered_result at counter name has) }
{
    if name.is_none() && !has {
        return Ok((None, counter));
    }
    let (name, after) = numbered_name(alloc, at, counter, name)?;
    Ok((Some(name), after))
}

/// Instructions with their numbers, and the counter after them.
fn numbered_instructions(
    alloc: Global,
    at: u32,
    first: u64,
    instructions: Sequence<Instruction>,
) -> Result<(Sequence<Instruction>, u64), AllocError>
    ensures { IfOk result (λ x. x ≡ spec.numbered_instructions at first instructions) }
{
    let mut found = Sequence::new(alloc);
    let mut counter = first;
    for instruction in instructions.into_vec() {
        let has = has_result(&instruction.operation);
        let (result_name, after) = numbered_result(alloc, at, counter, instruction.result, has)?;
        found.push(Instruction {
            at: instruction.at,
            result: result_name,
            operation: instruction.operation,
        })?;
        counter = after;
    }
    Ok((found, counter))
}

/// A block with its numbers, and the counter after it.
fn numbered_block(
    alloc: Global,
    at: u32,
    first: u64,
    block: Block,
) -> Result<(Block, u64), AllocError>
    ensures { IfOk result (λ x. x ≡ block_in at first block) }
{
    let (name, counter) = numbered_name(alloc, at, first, block.label)?;
    let counter = after_phis(counter, block.phis.as_slice())?;
    let (instructions, counter) = numbered_instructions(alloc, at, counter, block.instructions)?;
    let found = Block {
        label: Some(name),
        phis: block.phis,
        instructions,
        terminator: block.terminator,
    };
    Ok((found, counter))
}

/// Blocks with their numbers.
fn numbered_blocks(
    alloc: Global,
    at: u32,
    first: u64,
    blocks: Sequence<Block>,
) -> Result<Sequence<Block>, AllocError>
    ensures { IfOk result (λ bs. bs ≡ spec.numbered_blocks at first blocks) }
{
    let mut found = Sequence::new(alloc);
    let mut counter = first;
    for block in blocks.into_vec() {
        let (next, after) = numbered_block(alloc, at, counter, block)?;
        found.push(next)?;
        counter = after;
    }
    Ok(found)
}

// ---- functions and modules

fn numbered_header(alloc: Global, header: Header) -> Result<Header, AllocError>
    ensures { IfOk result (λ h. h ≡ spec.numbered_header header) }
{
    let at = header.name.at;
    let (parameters, _) = numbered_parameters(alloc, at, 0, header.parameters)?;
    Ok(Header {
        result: header.result,
        name: header.name,
        parameters,
    })
}

fn numbered_function(
    alloc: Global,
    function: FunctionDefinition,
) -> Result<FunctionDefinition, AllocError>
    ensures { IfOk result (λ f. f ≡ spec.numbered_function function) }
{
    let FunctionDefinition { header, blocks } = function;
    let at = header.name.at;
    let (parameters, counter) = numbered_parameters(alloc, at, 0, header.parameters)?;
    let blocks = numbered_blocks(alloc, at, counter, blocks)?;
    let header = Header {
        result: header.result,
        name: header.name,
        parameters,
    };
    Ok(FunctionDefinition { header, blocks })
}

fn numbered_declares(
    alloc: Global,
    declares: Sequence<Header>,
) -> Result<Sequence<Header>, AllocError>
    ensures { IfOk result (λ hs. hs ≡ map spec.numbered_header declares) }
{
    let mut found = Sequence::new(alloc);
    for header in declares.into_vec() {
        found.push(numbered_header(alloc, header)?)?;
    }
    Ok(found)
}

fn numbered_functions(
    alloc: Global,
    functions: Sequence<FunctionDefinition>,
) -> Result<Sequence<FunctionDefinition>, AllocError>
    ensures { IfOk result (λ fs. fs ≡ map spec.numbered_function functions) }
{
    let mut found = Sequence::new(alloc);
    for function in functions.into_vec() {
        found.push(numbered_function(alloc, function)?)?;
    }
    Ok(found)
}

/// The tree with the numbers of all that it leaves unnamed.
pub fn numbered(alloc: Global, tree: IrTree) -> Result<IrTree, AllocError>
    ensures { IfOk result (λ t. t ≡ spec.numbered tree) }
{
    Ok(IrTree {
        types: tree.types,
        globals: tree.globals,
        declares: numbered_declares(alloc, tree.declares)?,
        functions: numbered_functions(alloc, tree.functions)?,
    })
}
