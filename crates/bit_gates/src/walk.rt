ghost use Rattle.std.specs.Prelude.{◌≡◌, ◌<◌, ◌≤◌, length, List, IfOk, IfSome, OnOk};
ghost use Rattle.nodes.specs.declared.table.Node as gate;
ghost use Rattle.nodes.specs.Nodes.{Grows};
ghost use Rattle.bit_gates.specs.Rows.{IsRow, AreRows};

use crate::inputs::input;
use crate::operations::{binary, unary};
use nodes::Table;
use places::Home;
use row_nodes::{Gate, constant, each, top};
use std::alloc::{AllocError, Global};
use terms::{Memo, Node, Term};

/// The row of a term that the memo knows.
fn known_row<H: Home>(
    alloc: Global,
    memo: &Memo<H, Vec<usize>>,
    t: &Term<H>,
) -> Result<Option<Vec<usize>>, AllocError>
    ensures { (nodes : List gate.Node) → AreRows nodes memo.now → IfOk result (λ known. IfSome known (λ row. IsRow nodes row.items t.now)) }
{
    match memo.get(t) {
        Some(row) => Ok(Some(Vec::from_slice(alloc, row)?)),
        None => Ok(None),
    }
}

/// The row, which the memo knows from now on.
fn noted<H: Home>(
    alloc: Global,
    table: &Table,
    memo: &mut Memo<H, Vec<usize>>,
    t: &Term<H>,
    row: Vec<usize>,
) -> Result<Vec<usize>, AllocError>
    requires row { IsRow table.now row.items t.now }
    requires known { AreRows table.now memo.old }
    ensures row { IfOk result (λ row. IsRow table.now row.items t.now) }
    ensures known { OnOk result (AreRows table.now memo.new) }
{
    let copy = Vec::from_slice(alloc, &row)?;
    memo.put(t, copy)?;
    Ok(row)
}

/// The places of the bits of a term, the lowest first. A shared part is met once. The walk calls
/// itself once a level of the term.
pub(crate) fn row_of<H: Home>(
    alloc: Global,
    table: &mut Table,
    memo: &mut Memo<H, Vec<usize>>,
    t: &Term<H>,
) -> Result<Vec<usize>, AllocError>
    requires { AreRows table.old memo.old }
    ensures row { IfOk result (λ row. IsRow table.new row.items t.now) }
    ensures known { OnOk result (AreRows table.new memo.new) }
    ensures grows { OnOk result (Grows table.old table.new) }
{
    if let Some(row) = known_row(alloc, memo, t)? {
        return Ok(row);
    }
    match t.node() {
        Node::Constant(n) => constant(alloc, table, usize::from(n.width()), n.bits()),
        Node::Input(k) => input(alloc, table, *k),
        Node::One(op, a) => {
            let xs = row_of(alloc, table, memo, a)?;
            let row = unary(alloc, table, *op, &xs)?;
            noted(alloc, table, memo, t, row)
        }
        Node::Two(op, a, b) => {
            let xs = row_of(alloc, table, memo, a)?;
            let ys = row_of(alloc, table, memo, b)?;
            let row = binary(alloc, table, *op, &xs, &ys)?;
            noted(alloc, table, memo, t, row)
        }
        Node::Choice(test, a, b) => {
            let tests = row_of(alloc, table, memo, test)?;
            let xs = row_of(alloc, table, memo, a)?;
            let ys = row_of(alloc, table, memo, b)?;
            let row = each(alloc, table, Gate::Choice(top(&tests)), &xs, &ys)?;
            noted(alloc, table, memo, t, row)
        }
    }
}
