ghost use Rattle.std.specs.Prelude.{◌≡◌, ◌<◌, ◌≤◌, length, IfOk, OnOk};
ghost use Rattle.nodes.specs.Nodes.{Grows};
ghost use Rattle.nodes.specs.Names.{bits_at, AreWithin};
ghost use Rattle.rows.specs.Rows.{constant_bits};

use nodes::Table;
use std::alloc::{AllocError, Global};

/// The bits of a number.
pub fn constant(
    alloc: Global,
    table: &mut Table,
    width: usize,
    number: u64,
) -> Result<Vec<usize>, AllocError>
    ensures within { IfOk result (λ row. AreWithin table.new row.items) }
    ensures sized { IfOk result (λ row. length row.items ≡ width) }
    ensures bits { IfOk result (λ row. bits_at table.new row.items ≡ constant_bits width number) }
    ensures grows { OnOk result (Grows table.old table.new) }
{
    let mut row = Vec::new(alloc);
    let mut rest = number;
    for _ in 0..width {
        row.push(table.constant(rest % 2 == 1)?)?;
        rest /= 2;
    }
    Ok(row)
}
