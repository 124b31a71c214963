//! Objects by their names.
ghost use Rattle.std.specs.Prelude.{◌≡◌, ◌++◌, IfOk, OnOk};
ghost use Rattle.std.specs.List.{flat_map};
ghost use Rattle.leaf_lines.specs.Values as spec;

use flat_ir::{CallStep, FrameName, ObjectName, Program};
use name_texts::{put_global, put_place};
use std::alloc::{AllocError, Global};
use sym_bytes::Base;
use value_texts::{put_number, put_text};

// An execution of a node.
fn put_step(
    alloc: Global,
    text: &mut Vec<u8>,
    program: &Program,
    step: CallStep,
) -> Result<(), AllocError>
    ensures { OnOk result (text.new.items ≡ text.old.items ++ spec.step_text program.now step) }
{
    put_place(alloc, text, program, step.func, step.node)?;
    put_text(text, "#")?;
    put_number(alloc, text, step.count)
}

// An execution of a call, and a slash.
fn put_call(
    alloc: Global,
    text: &mut Vec<u8>,
    program: &Program,
    step: CallStep,
) -> Result<(), AllocError>
    ensures { OnOk result (text.new.items ≡ text.old.items ++ spec.call_text program.now step) }
{
    put_step(alloc, text, program, step)?;
    put_text(text, "/")
}

fn put_calls(
    alloc: Global,
    text: &mut Vec<u8>,
    program: &Program,
    calls: &[CallStep],
) -> Result<(), AllocError>
    ensures { OnOk result (text.new.items ≡ text.old.items ++ flat_map (spec.call_text program.now) calls.now) }
{
    for call in calls {
        put_call(alloc, text, program, *call)?;
    }
    Ok(())
}

// The calls of a frame's name, the newest first. One link at a time, so that no long name takes a deep stack.
fn calls_of(alloc: Global, frame: &FrameName) -> Result<Vec<CallStep>, AllocError>
    ensures { IfOk result (λ calls. calls.items ≡ frame.now) }
{
    let mut calls = Vec::new(alloc);
    let mut left = frame;
    'links: while let Some((newest, caller)) = left.newest() {
        calls.push(newest)?;
        left = caller;
    }
    Ok(calls)
}

// The calls of a frame's name, the oldest first.
fn put_frame(
    alloc: Global,
    text: &mut Vec<u8>,
    program: &Program,
    frame: &FrameName,
) -> Result<(), AllocError>
    ensures { OnOk result (text.new.items ≡ text.old.items ++ spec.frame_text program.now frame.now) }
{
    let mut calls = calls_of(alloc, frame)?;
    calls.reverse();
    put_calls(alloc, text, program, calls.as_slice())
}

// An object.
fn put_object(
    alloc: Global,
    text: &mut Vec<u8>,
    program: &Program,
    object: &ObjectName,
) -> Result<(), AllocError>
    ensures { OnOk result (text.new.items ≡ text.old.items ++ spec.object_text program.now object.now) }
{
    match object {
        ObjectName::Global(global) => put_global(text, program, *global),
        ObjectName::Made { frame, made } => {
            put_frame(alloc, text, program, frame)?;
            put_step(alloc, text, program, *made)
        }
    }
}

/// What a pointer points into.
pub(crate) fn put_base(
    alloc: Global,
    text: &mut Vec<u8>,
    program: &Program,
    base: &Base,
) -> Result<(), AllocError>
    ensures { OnOk result (text.new.items ≡ text.old.items ++ spec.base_text program.now base.now) }
{
    match base {
        Base::Null => put_text(text, "null"),
        Base::Object(object) => put_object(alloc, text, program, object),
    }
}
