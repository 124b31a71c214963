//! The types that nodes need.
ghost use Rattle.std.specs.Prelude.{◌≡◌, slice_get, take};
ghost use Rattle.checks.specs.Typed as spec;

use crate::types::{
    are_cases, are_indexed, are_moved, casts, compares, gives, has, have, is_int, is_scalar,
    same_type, sets, type_at, type_of,
};
use bitnum::Pred;
use flat_ir::{Func, FuncId, GepPart, Node, Operand, RegId, RegType, SwitchCase};

/// The types of a function's parameters.
fn params(func: &Func) -> &[RegType]
    ensures { result.now ≡ take func.now.params func.now.regs }
{
    let regs = func.regs.as_slice();
    let count = func.params as usize;
    if count <= regs.len() {
        &regs[..count]
    } else {
        regs
    }
}

/// Whether a call of the function has the types that it needs.
fn calls(
    funcs: &[Func],
    regs: &[RegType],
    callee: FuncId,
    args: &[Operand],
    register: Option<RegId>,
) -> bool
    ensures { result ≡ spec.calls regs.now (slice_get funcs.now callee.0) args.now register }
{
    match funcs.get(callee.0 as usize) {
        Some(callee) => {
            let fit = have(regs, args, params(callee));
            fit && sets(regs, register, callee.result)
        }
        None => false,
    }
}

fn asserts(regs: &[RegType], args: &[Operand]) -> bool
    ensures { result ≡ spec.asserts regs.now args.now }
{
    let params = [RegType::Ptr, RegType::Ptr, RegType::Int(32), RegType::Ptr];
    have(regs, args, &params)
}

fn computes(regs: &[RegType], a: Operand, b: Operand, to: RegId) -> bool
    ensures { result ≡ spec.computes regs.now a b to }
{
    let kind = type_at(regs, to);
    is_int(kind) && has(regs, a, kind) && has(regs, b, kind)
}

fn is_compared(regs: &[RegType], pred: Pred, a: Operand, b: Operand, to: RegId) -> bool
    ensures { result ≡ spec.is_compared regs.now pred a b to }
{
    same_type(type_at(regs, to), RegType::Int(1))
        && compares(pred, type_of(regs, a), type_of(regs, b))
}

fn is_placed(regs: &[RegType], base: Operand, parts: &[GepPart], to: RegId) -> bool
    ensures { result ≡ spec.is_placed regs.now base parts.now to }
{
    has(regs, base, RegType::Ptr)
        && are_indexed(regs, parts)
        && same_type(type_at(regs, to), RegType::Ptr)
}

fn is_selected(regs: &[RegType], condition: Operand, a: Operand, b: Operand, to: RegId) -> bool
    ensures { result ≡ spec.is_selected regs.now condition a b to }
{
    let kind = type_at(regs, to);
    has(regs, condition, RegType::Int(1)) && has(regs, a, kind) && has(regs, b, kind)
}

fn is_loaded(regs: &[RegType], pointer: Operand, to: RegId) -> bool
    ensures { result ≡ spec.is_loaded regs.now pointer to }
{
    has(regs, pointer, RegType::Ptr) && is_scalar(type_at(regs, to))
}

fn is_stored(regs: &[RegType], value: Operand, pointer: Operand) -> bool
    ensures { result ≡ spec.is_stored regs.now value pointer }
{
    is_scalar(type_of(regs, value)) && has(regs, pointer, RegType::Ptr)
}

fn switches(regs: &[RegType], value: Operand, cases: &[SwitchCase]) -> bool
    ensures { result ≡ spec.switches regs.now value cases.now }
{
    let kind = type_of(regs, value);
    is_int(kind) && are_cases(kind, cases)
}

fn mallocs(regs: &[RegType], size: Operand, to: Option<RegId>) -> bool
    ensures { result ≡ spec.mallocs regs.now size to }
{
    has(regs, size, RegType::Int(64)) && sets(regs, to, Some(RegType::Ptr))
}

fn copies(regs: &[RegType], from: Operand, to: Operand) -> bool
    ensures { result ≡ spec.copies regs.now from to }
{
    has(regs, from, RegType::Ptr) && has(regs, to, RegType::Ptr)
}

/// Whether the node, of a function with these registers and this result, has the types that it needs.
pub fn is_typed(funcs: &[Func], regs: &[RegType], returned: Option<RegType>, node: &Node) -> bool
    ensures { result ≡ spec.is_typed funcs.now regs.now returned node.now }
{
    match node {
        Node::Bin { a, b, result, .. } => computes(regs, *a, *b, *result),
        Node::Cmp {
            pred,
            a,
            b,
            result,
            ..
        } => is_compared(regs, *pred, *a, *b, *result),
        Node::Cast { op, a, result, .. } => casts(*op, type_of(regs, *a), type_at(regs, *result)),
        Node::Gep {
            base,
            parts,
            result,
            ..
        } => is_placed(regs, *base, parts.as_slice(), *result),
        Node::Select {
            condition,
            a,
            b,
            result,
            ..
        } => is_selected(regs, *condition, *a, *b, *result),
        Node::Alloca { result, .. } => same_type(type_at(regs, *result), RegType::Ptr),
        Node::Malloc { size, result, .. } => mallocs(regs, *size, *result),
        Node::Free { pointer, .. } => has(regs, *pointer, RegType::Ptr),
        Node::Load {
            pointer,
            result,
            ..
        } => is_loaded(regs, *pointer, *result),
        Node::Store { value, pointer, .. } => is_stored(regs, *value, *pointer),
        Node::Copy { from, to, .. } => copies(regs, *from, *to),
        Node::In { result, .. } => same_type(type_at(regs, *result), RegType::Int(32)),
        Node::Put { value, .. } => has(regs, *value, RegType::Int(32)),
        Node::Call {
            callee,
            args,
            result,
            ..
        } => calls(funcs, regs, *callee, args.as_slice(), *result),
        Node::Moves { sets, .. } => are_moved(regs, sets.as_slice()),
        Node::Branch { condition, .. } => has(regs, *condition, RegType::Int(1)),
        Node::Switch { value, cases, .. } => switches(regs, *value, cases.as_slice()),
        Node::Ret { value } => gives(regs, *value, returned),
        Node::Exit { status } => has(regs, *status, RegType::Int(32)),
        Node::Assert { args } => asserts(regs, args.as_slice()),
        Node::Jump { .. } | Node::Abort | Node::Unreachable => true,
    }
}
