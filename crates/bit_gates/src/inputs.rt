ghost use Rattle.std.specs.Prelude.{◌≡◌, ◌<◌, IfOk, OnOk};
ghost use Rattle.nodes.specs.Nodes.{Grows};
ghost use Rattle.nodes.specs.Names.{bits_at, AreWithin};
ghost use Rattle.term_bits.specs.TermBits.{input_bits};

use nodes::Table;
use std::alloc::{AllocError, Global};

/// The bits of an input byte.
pub(crate) fn input(alloc: Global, table: &mut Table, byte: u8) -> Result<Vec<usize>, AllocError>
    ensures within { IfOk result (λ row. AreWithin table.new row.items) }
    ensures bits { IfOk result (λ row. bits_at table.new row.items ≡ input_bits byte) }
    ensures grows { OnOk result (Grows table.old table.new) }
{
    let mut row = Vec::new(alloc);
    for i in 0..8 {
        row.push(table.input(8 * u16::from(byte) + 7 - i)?)?;
    }
    Ok(row)
}
