//! From the text of a module to its program.
ghost use Rattle.std.specs.Prelude.{IfOk, IfSome, ◌<◌, ◌^◌, length};
ghost use Rattle.checks.specs.Errors.{IsChecked};

use checks::check;
use flat_ir::Program;
use ir_lexer::text::lex;
use ir_reader::text::read;
use ir_resolve::resolve;
use std::alloc::{AllocError, Global};

/// The program of a text, if it is accepted.
pub fn program_of(alloc: Global, bytes: &[u8]) -> Result<Option<Program>, AllocError>
    requires { length bytes.now < 2 ^ 32 }
    ensures { IfOk result (λ found. IfSome found (λ p. IsChecked p.funcs)) }
{
    let tokens = lex(alloc, bytes)?;
    let Ok(tree) = read(alloc, bytes, tokens.as_slice()) else {
        return Ok(None);
    };
    let Ok(program) = resolve(alloc, &tree) else {
        return Ok(None);
    };
    match check(alloc, &program)? {
        None => Ok(Some(program)),
        Some(_) => Ok(None),
    }
}
