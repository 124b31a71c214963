//! Skipped calls as a state keeps them.
#![tactic(auto)]

ghost use Rattle.std.specs.Prelude.{◌≡◌, IfOk};

use flat_ir::{FrameName, FuncId, Location};
use places::Home;
use plain_list::Sequence;
use std::alloc::{AllocError, Global};
use std::marker::Model;
use sym_bytes::{CallId, SymValue};

/// A skipped call: its function, its arguments, the name of the frame that it would have made, its result where that is
/// recovered, and the locations of which its changes are recovered.
#[derive(Drop)]
pub struct Snapshot<H: Home> {
    pub call: CallId,
    pub func: FuncId,
    pub args: Sequence<SymValue<H>>,
    pub frame: FrameName,
    pub result: Option<SymValue<H>>,
    pub recovered: Sequence<Location>,
}

impl<H: Home> Model for Snapshot<H> {
    ghost use Rattle.skip_records.specs.Snapshots.{Snapshot};

    ghost Value = { Snapshot };

    ghost use Rattle.std.specs.Coded.{codes};
    ghost use Rattle.terms.specs.Codes.{coded_tree};

    ghost coded = { Prim.hlevel (codes, coded_tree) };

    ghost view = { λ s. record { call = s.call; func = s.func; args = s.args; frame = s.frame; result = s.result; recovered = s.recovered } };
}

/// An equal value, if there is one.
pub fn copied<H: Home>(value: &Option<SymValue<H>>) -> Result<Option<SymValue<H>>, AllocError>
    ensures { IfOk result (λ v. v ≡ value.now) }
{
    match value {
        Some(v) => Ok(Some(v.copy()?)),
        None => Ok(None),
    }
}

/// Equal values, which share their parts.
pub fn copy_values<H: Home>(
    alloc: Global,
    values: &[SymValue<H>],
) -> Result<Sequence<SymValue<H>>, AllocError>
    ensures { IfOk result (λ list. list ≡ values.now) }
{
    let mut list = Sequence::new(alloc);
    for value in values {
        list.push(value.copy()?)?;
    }
    Ok(list)
}

impl<H: Home> Snapshot<H> {
    /// The call.
    pub fn call(&self) -> CallId
        ensures { result ≡ self.now.call }
    {
        self.call
    }

    /// What the call returned, if that is recovered.
    pub fn result(&self) -> &Option<SymValue<H>>
        ensures { result.now ≡ self.now.result }
    {
        &self.result
    }

    /// An equal one.
    pub fn copy(&self, alloc: Global) -> Result<Snapshot<H>, AllocError>
        ensures { IfOk result (λ s. s ≡ self.now) }
    {
        Ok(Snapshot {
            call: self.call,
            func: self.func,
            args: copy_values(alloc, self.args.as_slice())?,
            frame: self.frame.copy()?,
            result: copied(&self.result)?,
            recovered: self.recovered.copy(alloc)?,
        })
    }
}
