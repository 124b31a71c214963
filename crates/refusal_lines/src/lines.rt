//! Lines of refusals, each whole.
ghost use Rattle.std.specs.Prelude.{◌≡◌, ◌++◌, ◌∷◌, [], Some, IfOk, OnOk, codes};
ghost use Rattle.std.specs.Fmt.{decimal};
ghost use Rattle.ir_tree.specs.Texts.{global_text};
ghost use Rattle.name_texts.specs.Lines.{place_text};
ghost use Rattle.refusal_lines.specs.Refusals as spec;

use flat_ir::{CheckError, FuncId, NodeId, Program};
use ir_reader::text::SyntaxError;
use ir_resolve::ResolveError;
use ir_tree::printing::push_name;
use name_texts::{put_place, put_register};
use std::alloc::{AllocError, Global};
use value_texts::{put_number, put_text};

fn put_end(text: &mut Vec<u8>) -> Result<(), AllocError>
    ensures { OnOk result (text.new.items ≡ text.old.items ++ (10 ∷ [])) }
{
    text.extend_from_slice(b"\n")
}

// The start of a line, to the name of the refusal.
fn begun(alloc: Global, name: &str) -> Result<Vec<u8>, AllocError>
    ensures { IfOk result (λ text. text.items ≡ codes "refused " ++ name.now) }
{
    let mut text = Vec::new(alloc);
    put_text(&mut text, "refused ")?;
    put_text(&mut text, name)?;
    Ok(text)
}

// The start of a line, to the place of the refusal.
fn begun_at(alloc: Global, name: &str, at: u32) -> Result<Vec<u8>, AllocError>
    ensures { IfOk result (λ text. text.items ≡ codes "refused " ++ (name.now ++ (codes " at=" ++ decimal at))) }
{
    let mut text = begun(alloc, name)?;
    put_text(&mut text, " at=")?;
    put_number(alloc, &mut text, u64::from(at))?;
    Ok(text)
}

/// The line of a refusal that has no place.
pub fn refused_line(alloc: Global, name: &str) -> Result<Vec<u8>, AllocError>
    ensures { IfOk result (λ line. line.items ≡ spec.refused name.now) }
{
    let mut text = begun(alloc, name)?;
    put_end(&mut text)?;
    Ok(text)
}

fn refused_at(alloc: Global, name: &str, at: u32) -> Result<Vec<u8>, AllocError>
    ensures { IfOk result (λ line. line.items ≡ spec.refused_at name.now at) }
{
    let mut text = begun_at(alloc, name, at)?;
    put_end(&mut text)?;
    Ok(text)
}

fn unsupported(alloc: Global, at: u32, what: &[u8]) -> Result<Vec<u8>, AllocError>
    ensures { IfOk result (λ line. line.items ≡ spec.refused_with (codes "Unsupported") at what.now) }
{
    let mut text = begun_at(alloc, "Unsupported", at)?;
    put_text(&mut text, " ")?;
    text.extend_from_slice(what)?;
    put_end(&mut text)?;
    Ok(text)
}

fn put_global(text: &mut Vec<u8>, name: &[u8]) -> Result<(), AllocError>
    ensures { OnOk result (text.new.items ≡ text.old.items ++ global_text name.now) }
{
    put_text(text, "@")?;
    push_name(text, name)
}

fn unknown_function(alloc: Global, at: u32, name: &[u8]) -> Result<Vec<u8>, AllocError>
    ensures { IfOk result (λ line. line.items ≡ spec.refused_with (codes "UnknownFunction") at (global_text name.now)) }
{
    let mut text = begun_at(alloc, "UnknownFunction", at)?;
    put_text(&mut text, " ")?;
    put_global(&mut text, name)?;
    put_end(&mut text)?;
    Ok(text)
}

/// The line of a text that isn't a module: the place of the first token that is refused, and its text where it is unsupported.
///
/// # Errors
/// `AllocError` also where the error is that memory ran out.
pub fn misread_line(alloc: Global, error: &SyntaxError) -> Result<Vec<u8>, AllocError>
    ensures { IfOk result (λ line. spec.misread_line error.now ≡ Some line.items) }
{
    match error {
        SyntaxError::Syntax { at } => refused_at(alloc, "Syntax", *at),
        SyntaxError::Unsupported { at, what } => unsupported(alloc, *at, what.as_slice()),
        SyntaxError::Memory => Err(AllocError),
    }
}

/// The line of a module that has no program: the place of its first refusal, and the name of a function that isn't known.
///
/// # Errors
/// `AllocError` also where the error is that memory ran out.
pub fn unresolved_line(alloc: Global, error: &ResolveError) -> Result<Vec<u8>, AllocError>
    ensures { IfOk result (λ line. spec.unresolved_line error.now ≡ Some line.items) }
{
    match error {
        ResolveError::UnknownName { at } => refused_at(alloc, "UnknownName", *at),
        ResolveError::UnknownFunction { at, name } => {
            unknown_function(alloc, *at, name.as_slice())
        }
        ResolveError::DuplicateName { at } => refused_at(alloc, "DuplicateName", *at),
        ResolveError::ReservedName { at } => refused_at(alloc, "ReservedName", *at),
        ResolveError::ObjectTooLarge { at } => refused_at(alloc, "ObjectTooLarge", *at),
        ResolveError::RecursiveType { at } => refused_at(alloc, "RecursiveType", *at),
        ResolveError::WrongNumber { at } => refused_at(alloc, "WrongNumber", *at),
        ResolveError::BadInitialiser { at } => refused_at(alloc, "BadInitialiser", *at),
        ResolveError::FunctionValue { at } => refused_at(alloc, "FunctionValue", *at),
        ResolveError::MainParameters { at } => refused_at(alloc, "MainParameters", *at),
        ResolveError::NoMain => refused_line(alloc, "NoMain"),
        ResolveError::Memory => Err(AllocError),
    }
}

// The start of a line, to the node of the refusal.
fn begun_in(
    alloc: Global,
    name: &str,
    program: &Program,
    function: FuncId,
    node: NodeId,
) -> Result<Vec<u8>, AllocError>
    ensures { IfOk result (λ text. text.items ≡ codes "refused " ++ (name.now ++ (codes " " ++ place_text program.now function node))) }
{
    let mut text = begun(alloc, name)?;
    put_text(&mut text, " ")?;
    put_place(alloc, &mut text, program, function, node)?;
    Ok(text)
}

/// The line of a program that doesn't meet its conditions: the first node that doesn't, and the register that may not be set.
pub fn unchecked_line(
    alloc: Global,
    program: &Program,
    error: CheckError,
) -> Result<Vec<u8>, AllocError>
    ensures { IfOk result (λ line. line.items ≡ spec.unchecked_line program.now error) }
{
    match error {
        CheckError::Undefined {
            function,
            node,
            register,
        } => {
            let mut text = begun_in(alloc, "Undefined", program, function, node)?;
            put_text(&mut text, " ")?;
            put_register(&mut text, program, function, register)?;
            put_end(&mut text)?;
            Ok(text)
        }
        CheckError::TypeClash { function, node } => {
            let mut text = begun_in(alloc, "TypeClash", program, function, node)?;
            put_end(&mut text)?;
            Ok(text)
        }
        CheckError::BadEdge { function, node } => {
            let mut text = begun_in(alloc, "BadEdge", program, function, node)?;
            put_end(&mut text)?;
            Ok(text)
        }
    }
}
