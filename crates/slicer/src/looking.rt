//! The functions that a slice looks at.
ghost use Rattle.std.specs.Prelude.{◌≡◌, ◌<◌, ◌≤◌, ◌++◌, ◌^◌, length, OnOk, IfOk, vec_len};
ghost use Rattle.flat_ir.specs.Whole.{IsWhole};
ghost use Rattle.least.specs.Sets.{Exactly, has};
ghost use Rattle.slices.specs.Slice.{Looks};
ghost use Rattle.slicer.specs.Facts.{func as func_of};
ghost use Rattle.slicer.specs.Calls as spec;

use crate::reaching::{Arrow, empty, reached};
use flat_ir::{FuncId, Node, ProgramData};
use mod_ref::callee;
use plain_list::Sequence;
use std::alloc::{AllocError, Global};

fn push_call(calls: &mut Vec<Arrow>, caller: u32, called: Option<FuncId>) -> Result<(), AllocError>
    ensures { OnOk result (calls.new.items ≡ calls.old.items ++ spec.call_if caller called) }
{
    if let Some(called) = called {
        calls.push(Arrow {
            from: caller as usize,
            to: called.0 as usize,
        })?;
    }
    Ok(())
}

/// The calls that the nodes of a function make.
fn calls_from(alloc: Global, caller: u32, nodes: &[Node]) -> Result<Sequence<Arrow>, AllocError>
    ensures { IfOk result (λ calls. calls ≡ spec.calls_from caller nodes.now) }
{
    let mut calls = Vec::new(alloc);
    for node in nodes {
        push_call(&mut calls, caller, callee(node))?;
    }
    Ok(Sequence::from_vec(calls))
}

/// The calls of a program, from function to function.
fn calls(alloc: Global, program: &ProgramData) -> Result<Sequence<Arrow>, AllocError>
    requires { IsWhole program.now }
    ensures { IfOk result (λ calls. calls ≡ spec.calls_by_funcs 0 program.now.funcs) }
{
    let mut calls = Sequence::new(alloc);
    let funcs = program.funcs.as_slice();
    for f in 0..funcs.len() {
        calls.append(calls_from(alloc, f as u32, funcs[f].nodes.as_slice())?)?;
    }
    Ok(calls)
}

/// The functions that a slice of a function looks at: itself, and those that it may call.
pub fn looked(alloc: Global, program: &ProgramData, f: FuncId) -> Result<Vec<bool>, AllocError>
    requires whole { IsWhole program.now }
    requires func { f.0 < length program.now.funcs }
    ensures exact { IfOk result (λ set. Exactly (λ k. Looks program.now f (func_of k)) (has set.items)) }
    ensures len { IfOk result (λ set. length set.items ≡ length program.now.funcs) }
{
    let calls = calls(alloc, program)?;
    let mut first = empty(alloc, program.funcs.len())?;
    first[f.0 as usize] = true;
    reached(alloc, first.as_slice(), calls.as_slice())
}
