//! The facts of a slice as numbers.
ghost use Rattle.std.specs.Prelude.{◌≡◌, ◌<◌, ◌≤◌, ◌+◌, ◌++◌, ◌⊎◌, ℕ, true, length, Some, OnOk, IfOk};
ghost use Rattle.std.specs.List.{flat_map};
ghost use Rattle.least.specs.Sets.{has, Within};
ghost use Rattle.flat_ir.specs.Machine.{func_at, regs_of};
ghost use Rattle.flat_ir.specs.Whole.{IsWhole};
ghost use Rattle.slicer.specs.Places as spec;
ghost use Rattle.slicer.specs.Places.{AreLaidOut};
ghost use Rattle.slicer.specs.declared.marks.Mark.TheVariants as marks;

use crate::marks::{Link, Mark};
use crate::reaching::Arrow;
use flat_ir::{Func, FuncId, Location, ProgramData, Site};
use least::add;
use mod_ref::nodes_of;
use plain_list::Sequence;
use std::alloc::{AllocError, Global};

/// Where a fact stands: its kind, its row, and which of how many it is there.
#[derive(Clone, Copy)]
pub struct Spot {
    pub kind: usize,
    pub row: usize,
    pub at: usize,
    pub limit: usize,
}

/// How many registers a function has, none where there is no such function.
fn registers(program: &ProgramData, func: FuncId) -> usize
    ensures { result ≡ length (regs_of (func_at program.now func)) }
{
    match program.funcs.get(func.0 as usize) {
        None => 0,
        Some(func) => func.regs.len(),
    }
}

/// Where a needed location stands.
fn spot_of_location(program: &ProgramData, location: Location) -> Spot
    ensures { result ≡ spec.spot_of program.now (marks.Needed location) }
{
    let row = program.funcs.len();
    match location {
        Location::Cells(Site::Node(func, node)) => Spot {
            kind: 1,
            row: func.0 as usize,
            at: node.0 as usize,
            limit: nodes_of(program, func).len(),
        },
        Location::Life(Site::Node(func, node)) => Spot {
            kind: 2,
            row: func.0 as usize,
            at: node.0 as usize,
            limit: nodes_of(program, func).len(),
        },
        Location::Cells(Site::Global(global)) => Spot {
            kind: 4,
            row,
            at: global as usize,
            limit: program.globals.len(),
        },
        Location::Life(Site::Global(global)) => Spot {
            kind: 5,
            row,
            at: global as usize,
            limit: program.globals.len(),
        },
        Location::Input => Spot {
            kind: 8,
            row,
            at: 0,
            limit: 3,
        },
        Location::Output => Spot {
            kind: 8,
            row,
            at: 1,
            limit: 3,
        },
        Location::Result => Spot {
            kind: 8,
            row,
            at: 2,
            limit: 3,
        },
    }
}

/// Where a fact stands.
fn spot_of(program: &ProgramData, mark: Mark) -> Spot
    ensures { result ≡ spec.spot_of program.now mark }
{
    match mark {
        Mark::Kept(func, node) => Spot {
            kind: 0,
            row: func.0 as usize,
            at: node.0 as usize,
            limit: nodes_of(program, func).len(),
        },
        Mark::Needed(location) => spot_of_location(program, location),
        Mark::Wanted(func, register) => Spot {
            kind: 3,
            row: func.0 as usize,
            at: register.0 as usize,
            limit: registers(program, func),
        },
        Mark::Returns(func) => Spot {
            kind: 6,
            row: program.funcs.len(),
            at: func.0 as usize,
            limit: program.funcs.len(),
        },
        Mark::Holds(func) => Spot {
            kind: 7,
            row: program.funcs.len(),
            at: func.0 as usize,
            limit: program.funcs.len(),
        },
    }
}

/// A sum, if it is small enough that nine numbers for each place can be told.
fn sum(a: usize, b: usize) -> Result<usize, AllocError>
    requires { a ≤ 576460752303423488 }
    ensures sum { IfOk result (λ c. c ≡ a + b) }
    ensures small { IfOk result (λ c. c ≤ 576460752303423488) }
{
    if b > 576460752303423488 - a {
        return Err(AllocError);
    }
    Ok(a + b)
}

fn larger(a: usize, b: usize) -> usize
    ensures one { a ≤ result }
    ensures other { b ≤ result }
{
    if a < b { b } else { a }
}

/// How many places a function needs.
fn width(func: &Func) -> usize
    ensures nodes { length func.now.nodes ≤ result }
    ensures registers { length func.now.regs ≤ result }
{
    larger(func.nodes.len(), func.regs.len())
}

/// Where the rows start.
fn starts(alloc: Global, program: &ProgramData) -> Result<Vec<usize>, AllocError>
    requires { IsWhole program.now }
    ensures { IfOk result (λ starts. AreLaidOut program.now starts.items) }
{
    let mut starts = Vec::new(alloc);
    let mut total = 0;
    starts.push(total)?;
    let funcs = program.funcs.as_slice();
    'each: for f in 0..funcs.len() {
        total = sum(total, width(&funcs[f]))?;
        starts.push(total)?;
    }
    total = sum(total, program.globals.len())?;
    total = sum(total, program.funcs.len())?;
    total = sum(total, 3)?;
    starts.push(total)?;
    Ok(starts)
}

/// The numbers of a program's facts.
#[derive(Drop)]
pub struct Places<'a> {
    pub program: &'a ProgramData,
    pub starts: Vec<usize>,
    ghost laid_out: { AreLaidOut program.now starts.items },
}

impl<'a> Places<'a> {
    /// The numbers of a program's facts. Want of memory is also where there are more than can be told.
    pub fn new(alloc: Global, program: &'a ProgramData) -> Result<Places<'a>, AllocError>
        requires { IsWhole program.now }
        ensures { IfOk result (λ places. places.program.now ≡ program.now) }
    {
        Ok(Places {
            program,
            starts: starts(alloc, program)?,
        })
    }

    fn start(&self, row: usize) -> usize
        ensures { result ≡ spec.start self.now.starts.items row }
    {
        match self.starts.get(row) {
            Some(start) => *start,
            None => 0,
        }
    }

    /// How many numbers there are.
    pub fn size(&self) -> usize
        ensures { result ≡ spec.size_of self.now.program.now self.now.starts.items }
    {
        9 * self.start(self.program.funcs.len() + 1)
    }

    /// The number of a fact, if it is the program's.
    pub fn number(&self, mark: Mark) -> Option<usize>
        ensures { result ≡ spec.number self.now.program.now self.now.starts.items mark }
    {
        let spot = spot_of(self.program, mark);
        if spot.at < spot.limit {
            return Some(9 * (self.start(spot.row) + spot.at) + spot.kind);
        }
        None
    }

    /// Whether a set has a fact.
    pub fn is_marked(&self, set: &[bool], mark: Mark) -> bool
        ensures { result ≡ spec.marked self.now.program.now self.now.starts.items set.now mark }
    {
        match self.number(mark) {
            Some(k) => k < set.len() && set[k],
            None => false,
        }
    }

    /// Puts a fact into a set.
    pub fn mark(&self, set: &mut [bool], mark: Mark)
        requires size { length set.old ≡ spec.size_of self.now.program.now self.now.starts.items }
        ensures grows { Within (has set.old) (has set.new) }
        ensures only { (k : ℕ) → has set.new k ≡ true → (has set.old k ≡ true) ⊎ (spec.number self.now.program.now self.now.starts.items mark ≡ Some k) }
        ensures marked { (k : ℕ) → spec.number self.now.program.now self.now.starts.items mark ≡ Some k → has set.new k ≡ true }
    {
        if let Some(k) = self.number(mark) {
            add(set, k);
        }
    }

    fn push_arrow(&self, arrows: &mut Vec<Arrow>, link: Link) -> Result<(), AllocError>
        ensures { OnOk result (arrows.new.items ≡ arrows.old.items ++ spec.arrow_of self.now.program.now self.now.starts.items link) }
    {
        let from = self.number(link.from);
        let to = self.number(link.to);
        if let (Some(from), Some(to)) = (from, to) {
            arrows.push(Arrow { from, to })?;
        }
        Ok(())
    }

    /// What follows from what, in numbers.
    pub fn arrows(&self, alloc: Global, links: &[Link]) -> Result<Sequence<Arrow>, AllocError>
        ensures { IfOk result (λ arrows. arrows ≡ flat_map (spec.arrow_of self.now.program.now self.now.starts.items) links.now) }
    {
        let mut arrows = Vec::new(alloc);
        for link in links {
            self.push_arrow(&mut arrows, *link)?;
        }
        Ok(Sequence::from_vec(arrows))
    }
}
