//! What a program asks.
ghost use Rattle.std.specs.Prelude.{◌≡◌, ◌≤◌, ◌<◌, ◌++◌, ◌^◌, List, [], length, map, take, IfOk, OnOk, Some, slice_get};
ghost use Rattle.std.specs.List.{flat_map};
ghost use Rattle.flat_ir.specs.declared.names.FuncId.{FuncId};
ghost use Rattle.flat_ir.specs.Whole.{IsWhole};
ghost use Rattle.flat_ir.specs.Machine as machine;
ghost use Rattle.points_to.specs.Asked as spec;
ghost use Rattle.points_to.specs.declared.holders.Holder.TheVariants as holder;
ghost use Rattle.points_to.specs.declared.holders.Inclusion.TheVariants as ask;

use crate::{Holder, Inclusion};
use flat_ir::{
    FuncId, GlobalVar, InitByte, MoveSet, Node, NodeId, Operand, ProgramData, RegId, RegType, Site,
};
use plain_list::Sequence;
use std::alloc::{AllocError, Global};

/// What holds the value of an operand.
fn holder_in(func: FuncId, operand: Operand) -> Holder
    ensures { result ≡ spec.holder_in func operand }
{
    match operand {
        Operand::Reg(register) => Holder::Register(func, register),
        Operand::Global { global, .. } => Holder::Address(global),
        Operand::Int(_) | Operand::Null => Holder::Nothing,
    }
}

/// An operand's value is copied.
fn copied(func: FuncId, from: Operand, to: RegId) -> Inclusion
    ensures { result ≡ ask.Copies (spec.holder_in func from) (holder.Register func to) }
{
    Inclusion::Copies {
        from: holder_in(func, from),
        to: Holder::Register(func, to),
    }
}

/// The register that an allocating node sets, if it sets one, may point to what the node makes.
fn made_in(
    alloc: Global,
    func: FuncId,
    node: NodeId,
    register: Option<RegId>,
) -> Result<Sequence<Inclusion>, AllocError>
    ensures { IfOk result (λ list. list ≡ spec.made_in func node register) }
{
    match register {
        None => Ok(Sequence::new(alloc)),
        Some(register) => Sequence::of_one(
            alloc,
            Inclusion::Names {
                to: Holder::Register(func, register),
                site: Site::Node(func, node),
            },
        ),
    }
}

/// A load of a pointer.
fn loaded_in(
    alloc: Global,
    func: FuncId,
    kind: RegType,
    pointer: Operand,
    register: RegId,
) -> Result<Sequence<Inclusion>, AllocError>
    ensures { IfOk result (λ list. list ≡ spec.loaded_in func kind pointer register) }
{
    match kind {
        RegType::Int(_) => Ok(Sequence::new(alloc)),
        RegType::Ptr => Sequence::of_one(
            alloc,
            Inclusion::Loads {
                pointer: holder_in(func, pointer),
                to: Holder::Register(func, register),
            },
        ),
    }
}

/// The registers that are set together.
fn moved_in(
    alloc: Global,
    func: FuncId,
    sets: &[MoveSet],
) -> Result<Sequence<Inclusion>, AllocError>
    ensures { IfOk result (λ list. list ≡ spec.moved_in func sets.now) }
{
    let mut list = Vec::new(alloc);
    for set in sets {
        list.push(copied(func, set.value, set.register))?;
    }
    Ok(Sequence::from_vec(list))
}

/// The first operands of a list.
fn first_of(args: &[Operand], count: usize) -> &[Operand]
    ensures { result.now ≡ take count args.now }
{
    if count < args.len() {
        return &args[..count];
    }
    args
}

/// The arguments of a call are the callee's first registers, as far as it has registers.
fn passed_in(
    alloc: Global,
    func: FuncId,
    callee: FuncId,
    args: &[Operand],
) -> Result<Sequence<Inclusion>, AllocError>
    requires few { length args.now ≤ 2 ^ 32 }
    ensures { IfOk result (λ list. list ≡ spec.passed_in func callee 0 args.now) }
{
    let mut list = Vec::new(alloc);
    for k in 0..args.len() {
        list.push(Inclusion::Copies {
            from: holder_in(func, args[k]),
            to: Holder::Register(callee, RegId(k as u32)),
        })?;
    }
    Ok(Sequence::from_vec(list))
}

/// The register that a call sets, if it sets one.
fn received_in(
    alloc: Global,
    func: FuncId,
    callee: FuncId,
    register: Option<RegId>,
) -> Result<Sequence<Inclusion>, AllocError>
    ensures { IfOk result (λ list. list ≡ spec.received_in func callee register) }
{
    match register {
        None => Ok(Sequence::new(alloc)),
        Some(register) => Sequence::of_one(
            alloc,
            Inclusion::Copies {
                from: Holder::Returned(callee),
                to: Holder::Register(func, register),
            },
        ),
    }
}

/// The value that is returned, if there is one.
fn returned_in(
    alloc: Global,
    func: FuncId,
    value: Option<Operand>,
) -> Result<Sequence<Inclusion>, AllocError>
    ensures { IfOk result (λ list. list ≡ spec.returned_in func value) }
{
    match value {
        None => Ok(Sequence::new(alloc)),
        Some(value) => Sequence::of_one(
            alloc,
            Inclusion::Copies {
                from: holder_in(func, value),
                to: Holder::Returned(func),
            },
        ),
    }
}

/// The types of a function's registers, none where there is no such function.
fn registers_of(program: &ProgramData, func: FuncId) -> &[RegType]
    ensures { result.now ≡ machine.regs_of (machine.func_at program.now func) }
{
    match program.funcs.get(func.0 as usize) {
        None => &[],
        Some(func) => func.regs.as_slice(),
    }
}

/// The type of a register.
fn type_at(program: &ProgramData, func: FuncId, register: RegId) -> RegType
    ensures { result ≡ machine.type_at program.now func register }
{
    match registers_of(program, func).get(register.0 as usize) {
        None => RegType::Ptr,
        Some(kind) => *kind,
    }
}

/// What a call asks.
fn called_in(
    alloc: Global,
    program: &ProgramData,
    func: FuncId,
    callee: FuncId,
    args: &[Operand],
    register: Option<RegId>,
) -> Result<Sequence<Inclusion>, AllocError>
    requires few { length (machine.regs_of (machine.func_at program.now callee)) ≤ 2 ^ 32 }
    ensures { IfOk result (λ list. list ≡ spec.passed_in func callee 0 (take (length (machine.regs_of (machine.func_at program.now callee))) args.now) ++ spec.received_in func callee register) }
{
    let given = first_of(args, registers_of(program, callee).len());
    let mut list = passed_in(alloc, func, callee, given)?;
    list.append(received_in(alloc, func, callee, register)?)?;
    Ok(list)
}

/// What a node asks.
fn asked_by(
    alloc: Global,
    program: &ProgramData,
    func: FuncId,
    at: NodeId,
    node: &Node,
) -> Result<Sequence<Inclusion>, AllocError>
    requires few { (f : FuncId) → length (machine.regs_of (machine.func_at program.now f)) ≤ 2 ^ 32 }
    ensures { IfOk result (λ list. list ≡ spec.asked_by program.now func at node.now) }
{
    match node {
        Node::Gep { base, result, .. } => Sequence::of_one(alloc, copied(func, *base, *result)),
        Node::Select { a, b, result, .. } => {
            Sequence::from_slice(
                alloc,
                &[copied(func, *a, *result), copied(func, *b, *result)],
            )
        }
        Node::Alloca { result, .. } => made_in(alloc, func, at, Some(*result)),
        Node::Malloc { result, .. } => made_in(alloc, func, at, *result),
        Node::Load {
            pointer,
            result,
            ..
        } => {
            loaded_in(
                alloc,
                func,
                type_at(program, func, *result),
                *pointer,
                *result,
            )
        }
        Node::Store { value, pointer, .. } => Sequence::of_one(
            alloc,
            Inclusion::Stores {
                from: holder_in(func, *value),
                pointer: holder_in(func, *pointer),
            },
        ),
        Node::Copy { from, to, .. } => Sequence::of_one(
            alloc,
            Inclusion::Moves {
                from: holder_in(func, *from),
                to: holder_in(func, *to),
            },
        ),
        Node::Call {
            callee,
            args,
            result,
            ..
        } => called_in(alloc, program, func, *callee, args.as_slice(), *result),
        Node::Moves { sets, .. } => moved_in(alloc, func, sets.as_slice()),
        Node::Ret { value } => returned_in(alloc, func, *value),
        Node::Bin { .. }
        | Node::Cmp { .. }
        | Node::Cast { .. }
        | Node::Free { .. }
        | Node::In { .. }
        | Node::Put { .. }
        | Node::Jump { .. }
        | Node::Branch { .. }
        | Node::Switch { .. }
        | Node::Exit { .. }
        | Node::Abort
        | Node::Assert { .. }
        | Node::Unreachable => Ok(Sequence::new(alloc)),
    }
}

/// What the nodes of a function ask.
fn asked_by_nodes(
    alloc: Global,
    program: &ProgramData,
    func: FuncId,
    nodes: &[Node],
) -> Result<Sequence<Inclusion>, AllocError>
    requires regs { (f : FuncId) → length (machine.regs_of (machine.func_at program.now f)) ≤ 2 ^ 32 }
    requires nodes { length nodes.now ≤ 2 ^ 32 }
    ensures { IfOk result (λ list. list ≡ spec.asked_from program.now func 0 nodes.now) }
{
    let mut list = Sequence::new(alloc);
    for n in 0..nodes.len() {
        list.append(asked_by(alloc, program, func, NodeId(n as u32), &nodes[n])?)?;
    }
    Ok(list)
}

/// What the functions ask.
fn asked_by_funcs(alloc: Global, program: &ProgramData) -> Result<Sequence<Inclusion>, AllocError>
    requires whole { IsWhole program.now }
    ensures { IfOk result (λ list. list ≡ spec.asked_by_funcs program.now 0 program.now.funcs) }
{
    let mut list = Sequence::new(alloc);
    let funcs = program.funcs.as_slice();
    for f in 0..funcs.len() {
        let nodes = funcs[f].nodes.as_slice();
        list.append(asked_by_nodes(alloc, program, FuncId(f as u32), nodes)?)?;
    }
    Ok(list)
}

/// A byte with which a global starts.
fn push_byte(list: &mut Vec<Inclusion>, global: u32, byte: InitByte) -> Result<(), AllocError>
    ensures { OnOk result (list.new.items ≡ list.old.items ++ spec.asked_by_byte global byte) }
{
    if let InitByte::PtrByte { global: to, .. } = byte {
        list.push(Inclusion::Names {
            to: Holder::Bytes(Site::Global(global)),
            site: Site::Global(to),
        })?;
    }
    Ok(())
}

/// The bytes with which a global starts.
fn asked_by_global(
    alloc: Global,
    global: u32,
    bytes: &[InitByte],
) -> Result<Sequence<Inclusion>, AllocError>
    ensures { IfOk result (λ list. list ≡ flat_map (spec.asked_by_byte global) bytes.now) }
{
    let mut list = Vec::new(alloc);
    for byte in bytes {
        push_byte(&mut list, global, *byte)?;
    }
    Ok(Sequence::from_vec(list))
}

/// What the globals ask.
fn asked_by_globals(alloc: Global, globals: &[GlobalVar]) -> Result<Sequence<Inclusion>, AllocError>
    requires few { length globals.now ≤ 2 ^ 32 }
    ensures { IfOk result (λ list. list ≡ spec.asked_by_globals 0 globals.now) }
{
    let mut list = Sequence::new(alloc);
    for g in 0..globals.len() {
        let bytes = globals[g].init.as_slice();
        list.append(asked_by_global(alloc, g as u32, bytes)?)?;
    }
    Ok(list)
}

/// What a program asks.
pub fn asked(alloc: Global, program: &ProgramData) -> Result<Sequence<Inclusion>, AllocError>
    requires whole { IsWhole program.now }
    ensures { IfOk result (λ list. list ≡ spec.asked program.now) }
{
    let mut list = asked_by_globals(alloc, program.globals.as_slice())?;
    list.append(asked_by_funcs(alloc, program)?)?;
    Ok(list)
}
