//! From the bytes of a file to the tree and the program that they are the text of, or to the line of the first refusal.
ghost use Rattle.std.specs.Prelude.{◌≡◌, ℕ, ◌<◌, ◌^◌, IsTrue, List, length, IfOk, IfErr};
ghost use Rattle.checks.specs.Errors.{IsChecked, IsFirstOf};
ghost use Rattle.ir_programs.specs.Answers.{Resolved, answer};
ghost use Rattle.ir_programs.specs.Readable.{is_readable};
ghost use Rattle.ir_reader.specs.Reading.{IsReadAs, Says as SaysOfText};
ghost use Rattle.ir_resolve.specs.Resolving.{Says as SaysOfTree};
ghost use Rattle.ir_tree.specs.declared.module.IrTree.{IrTree};
ghost use Rattle.chop_top.specs.Accepted.{IsTextOf, HasOneProgram};
ghost use Rattle.chop_top.specs.Refusals.{IsMisread, IsUnresolvedTree, IsUncheckedProgram, IsUnaccepted, StopsAs, stop_of};

use checks::check;
use flat_ir::{CheckError, Program};
use ir_lexer::text::lex;
use ir_reader::text::{SyntaxError, read};
use ir_resolve::{ResolveError, resolve};
use ir_tree::module::IrTree;
use refusal_lines::{misread_line, unchecked_line, unresolved_line};
use std::alloc::{AllocError, Global};

/// Why a text isn't accepted: the line that says it; or that memory ran out.
#[derive(Drop)]
pub enum Stop {
    Line(Vec<u8>),
    Memory,
}

// A line that says why, or nothing where memory ran out.
fn stopped(line: Result<Vec<u8>, AllocError>) -> Stop
    ensures { result ≡ stop_of line }
{
    match line {
        Ok(text) => Stop::Line(text),
        Err(AllocError) => Stop::Memory,
    }
}

fn misread(alloc: Global, error: &SyntaxError) -> Stop
    ensures { (bytes : List ℕ) → SaysOfText bytes error.now → StopsAs (IsMisread bytes) result }
{
    stopped(misread_line(alloc, error))
}

fn unresolved(alloc: Global, error: &ResolveError) -> Stop
    ensures { (tree : IrTree) → SaysOfTree tree error.now → StopsAs (IsUnresolvedTree tree) result }
{
    stopped(unresolved_line(alloc, error))
}

fn unchecked(alloc: Global, program: &Program, error: CheckError) -> Stop
    requires { IsFirstOf program.now.funcs error }
    ensures { StopsAs (IsUncheckedProgram program.now) result }
{
    stopped(unchecked_line(alloc, program, error))
}

// The tree of a text, if it is a module.
fn tree_of(alloc: Global, bytes: &[u8]) -> Result<IrTree, Stop>
    requires { length bytes.now < 2 ^ 32 }
    ensures tree { IfOk result (λ tree. IsReadAs bytes.now tree) }
    ensures stop { IfErr result (λ stop. StopsAs (IsMisread bytes.now) stop) }
{
    let tokens = match lex(alloc, bytes) {
        Ok(tokens) => tokens,
        Err(AllocError) => return Err(Stop::Memory),
    };
    match read(alloc, bytes, tokens.as_slice()) {
        Ok(tree) => Ok(tree),
        Err(error) => Err(misread(alloc, &error)),
    }
}

// The program of a tree, if it has one.
fn program_of(alloc: Global, tree: &IrTree) -> Result<Program, Stop>
    requires { IsTrue (is_readable tree.now) }
    ensures program { IfOk result (λ p. answer tree.now ≡ Resolved p) }
    ensures stop { IfErr result (λ stop. StopsAs (IsUnresolvedTree tree.now) stop) }
{
    match resolve(alloc, tree) {
        Ok(program) => Ok(program),
        Err(error) => Err(unresolved(alloc, &error)),
    }
}

// Whether a program meets its conditions.
fn checked(alloc: Global, program: &Program) -> Result<(), Stop>
    ensures checked { IfOk result (λ u. IsChecked program.now.funcs) }
    ensures stop { IfErr result (λ stop. StopsAs (IsUncheckedProgram program.now) stop) }
{
    match check(alloc, program) {
        Ok(None) => Ok(()),
        Ok(Some(error)) => Err(unchecked(alloc, program, error)),
        Err(AllocError) => Err(Stop::Memory),
    }
}

/// The tree and the program of a text that is accepted.
pub fn accepted(alloc: Global, bytes: &[u8]) -> Result<(IrTree, Program), Stop>
    requires { length bytes.now < 2 ^ 32 }
    ensures text { IfOk result (λ both. IsTextOf bytes.now both.0 both.1) }
    ensures stop { IfErr result (λ stop. StopsAs (IsUnaccepted bytes.now) stop) }
{
    let tree = match tree_of(alloc, bytes) {
        Ok(tree) => tree,
        Err(stop) => return Err(stop),
    };
    let program = match program_of(alloc, &tree) {
        Ok(program) => program,
        Err(stop) => return Err(stop),
    };
    match checked(alloc, &program) {
        Ok(()) => Ok((tree, program)),
        Err(stop) => Err(stop),
    }
}

/// A text is that of one program at most.
pub fn a_text_has_one_program()
    ensures { HasOneProgram }
{}
