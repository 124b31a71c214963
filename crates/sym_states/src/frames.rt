//! Frames.
ghost use Rattle.std.specs.Prelude.{◌≡◌, Some, slice_get, slice_set, unwrap_or, IfOk, OnOk};
ghost use Rattle.sym_states.specs.States as spec;

use flat_ir::{CallStep, FrameName, FuncId, Location, NodeId, ObjectName, RegId};
use places::Home;
use plain_list::Sequence;
use skip_records::copied;
use std::alloc::{AllocError, Global};
use std::marker::Model;
use sym_bytes::{CallId, SymValue};

/// Where a frame stands: at a node; at the end of a slice; or at a node from which a slice leads nowhere.
#[derive(Clone, Copy, Debug, PartialEq, Eq)]
pub enum Place {
    At(NodeId),
    End,
    Never(NodeId),
}

impl Place {
    /// The node of the place; an end has none.
    pub fn node(self) -> NodeId
        ensures { result ≡ spec.node_of self }
    {
        match self {
            Place::At(node) => node,
            Place::End => NodeId(0),
            Place::Never(node) => node,
        }
    }
}

/// What a recovery is for: what a call changed in a location, and how long the log was at its root.
#[derive(Clone, Copy, Debug, PartialEq, Eq)]
pub struct Target {
    pub call: CallId,
    pub at: Location,
    pub length: u64,
}

/// A function at a place, its registers, its name, and how often it has executed each node.
pub struct Frame<H: Home> {
    func: FuncId,
    place: Place,
    regs: Sequence<Option<SymValue<H>>>,
    name: FrameName,
    counts: Sequence<u64>,
}

// Its parts are let go in one place, and not at each exit of a function that owns a frame.
impl<H: Home> Drop for Frame<H> {
    fn drop(self) {
        let Frame {
            func: _,
            place: _,
            regs: _,
            name: _,
            counts: _,
        } = self;
    }
}

impl<H: Home> Model for Frame<H> {
    ghost use Rattle.sym_states.specs.States.{Frame};

    ghost Value = { Frame };

    ghost use Rattle.std.specs.Coded.{codes};
    ghost use Rattle.terms.specs.Codes.{coded_tree};

    ghost coded = { Prim.hlevel (codes, coded_tree) };

    ghost view = { λ f. record { func = f.func; place = f.place; regs = f.regs; name = f.name; counts = f.counts } };
}

fn copied_regs<H: Home>(
    alloc: Global,
    regs: &[Option<SymValue<H>>],
) -> Result<Sequence<Option<SymValue<H>>>, AllocError>
    ensures { IfOk result (λ list. list ≡ regs.now) }
{
    let mut list = Sequence::new(alloc);
    for value in regs {
        list.push(copied(value)?)?;
    }
    Ok(list)
}

impl<H: Home> Frame<H> {
    pub fn new(
        func: FuncId,
        place: Place,
        regs: Sequence<Option<SymValue<H>>>,
        name: FrameName,
        counts: Sequence<u64>,
    ) -> Frame<H>
        ensures { result ≡ record { func = func; place = place; regs = regs; name = name; counts = counts } }
    {
        Frame {
            func,
            place,
            regs,
            name,
            counts,
        }
    }

    /// The function.
    pub fn func(&self) -> FuncId
        ensures { result ≡ self.now.func }
    {
        self.func
    }

    /// Where it stands.
    pub fn place(&self) -> Place
        ensures { result ≡ self.now.place }
    {
        self.place
    }

    /// The values of its registers.
    pub fn regs(&self) -> &[Option<SymValue<H>>]
        ensures { result.now ≡ self.now.regs }
    {
        self.regs.as_slice()
    }

    /// Its name.
    pub fn name(&self) -> &FrameName
        ensures { result.now ≡ self.now.name }
    {
        &self.name
    }

    /// How often it has executed a node.
    pub fn count(&self, node: usize) -> u64
        ensures { result ≡ unwrap_or (slice_get self.now.counts node) 0 }
    {
        match self.counts.get(node) {
            Some(count) => *count,
            None => 0,
        }
    }

    /// An equal frame.
    pub fn copy(&self, alloc: Global) -> Result<Frame<H>, AllocError>
        ensures { IfOk result (λ f. f ≡ self.now) }
    {
        Ok(Frame {
            func: self.func,
            place: self.place,
            regs: copied_regs(alloc, self.regs.as_slice())?,
            name: self.name.copy()?,
            counts: self.counts.copy(alloc)?,
        })
    }

    /// The execution of its node that it makes now.
    pub fn step_now(&self) -> Result<CallStep, AllocError>
        ensures { IfOk result (λ step. step ≡ spec.step_now self.now) }
    {
        let node = self.place.node();
        let count = self
            .count(node.0 as usize)
            .checked_add(1)
            .ok_or(AllocError)?;
        Ok(CallStep {
            func: self.func,
            node,
            count,
        })
    }

    /// The object that its node makes now.
    pub fn made_now(&self) -> Result<ObjectName, AllocError>
        ensures { IfOk result (λ x. x ≡ spec.made_now self.now) }
    {
        Ok(ObjectName::Made {
            frame: self.name.copy()?,
            made: self.step_now()?,
        })
    }

    /// The name of the frame that its call makes now.
    pub fn name_below(&self, alloc: Global) -> Result<FrameName, AllocError>
        ensures { IfOk result (λ f. f ≡ spec.name_below self.now) }
    {
        self.name.called(alloc, self.step_now()?)
    }

    /// Counts that the frame has executed its node once more.
    pub fn counted(&mut self) -> Result<(), AllocError>
        ensures { OnOk result (self.new ≡ spec.counted self.old) }
    {
        let step = self.step_now()?;
        let node = step.node.0 as usize;
        if node < self.counts.len() {
            self.counts.put(node, step.count);
        }
        Ok(())
    }

    /// Sets a register.
    pub fn set(&mut self, register: RegId, value: SymValue<H>)
        ensures { self.new ≡ spec.set register value self.old }
    {
        let at = register.0 as usize;
        if at < self.regs.len() {
            self.regs.put(at, Some(value));
        }
    }

    /// Sets a register, if one is named and there is a value.
    pub fn set_if(&mut self, register: Option<RegId>, value: Option<SymValue<H>>)
        ensures { self.new ≡ spec.set_if register value self.old }
    {
        match (register, value) {
            (Some(register), Some(value)) => self.set(register, value),
            _ => {}
        }
    }

    /// Stands at another place.
    pub fn at(&mut self, place: Place)
        ensures { self.new ≡ record self.old { place = place } }
    {
        self.place = place;
    }
}
