//! The points-to sets of a program.
ghost use Rattle.std.specs.Prelude.{◌≡◌, ◌∷◌, [], ℕ, length, map, replicate, IfOk};
ghost use Rattle.flat_ir.specs.declared.program.Func.{Func};
ghost use Rattle.points_to.specs.Sets as spec;
ghost use Rattle.points_to.specs.Sets.{ArePointsTo, empty_part, empty_tables};

use crate::asking::asked;
use crate::rows::{Row, Rows, Table};
use crate::tables::Tables;
use crate::{Holder, Inclusion};
use flat_ir::{Func, FuncId, Program, ProgramData, RegId, Site};
use std::alloc::{AllocError, Global};
use std::marker::Model;

/// So many empty rows.
fn empty_rows(alloc: Global, count: usize) -> Result<Rows, AllocError>
    ensures { IfOk result (λ rows. rows ≡ replicate count []) }
{
    let mut rows = Vec::new(alloc);
    for _ in 0..count {
        rows.push(Row::new(alloc))?;
    }
    Ok(Rows::from_vec(rows))
}

/// An empty row for each register of each function.
fn empty_registers(alloc: Global, funcs: &[Func]) -> Result<Table, AllocError>
    ensures { IfOk result (λ table. table ≡ empty_part (λ f. length f.regs) funcs.now) }
{
    let mut parts = Vec::new(alloc);
    for func in funcs {
        parts.push(empty_rows(alloc, func.regs.len())?)?;
    }
    Ok(Table::from_vec(parts))
}

/// An empty row for each node of each function.
fn empty_nodes(alloc: Global, funcs: &[Func]) -> Result<Table, AllocError>
    ensures { IfOk result (λ table. table ≡ empty_part (λ f. length f.nodes) funcs.now) }
{
    let mut parts = Vec::new(alloc);
    for func in funcs {
        parts.push(empty_rows(alloc, func.nodes.len())?)?;
    }
    Ok(Table::from_vec(parts))
}

/// A table of one part.
fn one_part(alloc: Global, count: usize) -> Result<Table, AllocError>
    ensures { IfOk result (λ table. table ≡ replicate count [] ∷ []) }
{
    let mut parts = Vec::new(alloc);
    parts.push(empty_rows(alloc, count)?)?;
    Ok(Table::from_vec(parts))
}

/// An empty row for each holder.
fn empty(alloc: Global, program: &ProgramData) -> Result<Vec<Table>, AllocError>
    ensures { IfOk result (λ tables. tables.items ≡ empty_tables program.now) }
{
    let mut tables = Vec::new(alloc);
    tables.push(empty_registers(alloc, program.funcs.as_slice())?)?;
    tables.push(empty_nodes(alloc, program.funcs.as_slice())?)?;
    tables.push(one_part(alloc, program.globals.len())?)?;
    tables.push(one_part(alloc, program.funcs.len())?)?;
    Ok(tables)
}

/// For each register of a program, and for the bytes of the objects of each of its sites, the sites whose objects
/// its pointers may point to.
#[derive(Drop)]
pub struct PointsTo {
    tables: Vec<Table>,
}

impl Model for PointsTo {
    ghost use Rattle.points_to.specs.Rows as spec;

    ghost Value = { spec.Tables };

    ghost view = { λ p. p.tables.items };
}

impl PointsTo {
    /// The sites to which a register may point, in their order.
    pub fn of_reg(&self, func: FuncId, register: RegId) -> &[Site]
        ensures { result.now ≡ spec.of_reg self.now func register }
    {
        match self.tables.get(0) {
            Some(table) => table.row(func.0 as usize, register.0 as usize),
            None => &[],
        }
    }

    /// The sites to which the bytes of a site's objects may point, in their order.
    pub fn of_cells(&self, site: Site) -> &[Site]
        ensures { result.now ≡ spec.of_cells self.now site }
    {
        match site {
            Site::Node(func, node) => match self.tables.get(1) {
                Some(table) => table.row(func.0 as usize, node.0 as usize),
                None => &[],
            },
            Site::Global(global) => match self.tables.get(2) {
                Some(table) => table.row(0, global as usize),
                None => &[],
            },
        }
    }
}

/// The points-to sets of a program: the least in which is kept what its nodes and its globals ask. It fails for want of
/// memory alone.
pub fn points_to(alloc: Global, program: &Program) -> Result<PointsTo, AllocError>
    ensures { IfOk result (λ sets. ArePointsTo program.now sets) }
{
    let parts = program.parts();
    let list = asked(alloc, parts)?;
    let mut tables = Tables {
        kinds: empty(alloc, parts)?,
        changed: false,
    };
    tables.solve(alloc, list.as_slice())?;
    Ok(PointsTo {
        tables: tables.kinds,
    })
}
