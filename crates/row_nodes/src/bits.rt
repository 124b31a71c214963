ghost use Rattle.std.specs.Prelude.{◌≡◌, ◌<◌, length, IfOk, OnOk};
ghost use Rattle.gates.specs.Bits.{fold_not, fold_and, fold_xor};
ghost use Rattle.nodes.specs.Nodes.{bit_at, Grows};
ghost use Rattle.rows.specs.Rows.{fold_or, fold_mux};

use nodes::Table;
use std::alloc::AllocError;

/// The place of the bit that is 1 where one of the two is.
#[tactic(auto, using(nodes::proofs::GrowthLemmas::stays, nodes::proofs::GrowthLemmas::still_within, nodes::proofs::GrowthLemmas::grows_on), unfolding(rows::specs::Rows::fold_or))]
pub(crate) fn or(table: &mut Table, a: usize, b: usize) -> Result<usize, AllocError>
    requires left { a < length table.old }
    requires right { b < length table.old }
    ensures within { IfOk result (λ k. k < length table.new) }
    ensures bit { IfOk result (λ k. bit_at table.new k ≡ fold_or (bit_at table.old a) (bit_at table.old b)) }
    ensures grows { OnOk result (Grows table.old table.new) }
{
    let a = table.not(a)?;
    let b = table.not(b)?;
    let neither = table.and(a, b)?;
    table.not(neither)
}

/// The place of the bit that is the first one where the test is 1, and else the second.
#[tactic(auto, using(nodes::proofs::GrowthLemmas::stays, nodes::proofs::GrowthLemmas::still_within, nodes::proofs::GrowthLemmas::grows_on), unfolding(rows::specs::Rows::fold_mux))]
pub(crate) fn mux(table: &mut Table, test: usize, a: usize, b: usize) -> Result<usize, AllocError>
    requires test { test < length table.old }
    requires left { a < length table.old }
    requires right { b < length table.old }
    ensures within { IfOk result (λ k. k < length table.new) }
    ensures bit { IfOk result (λ k. bit_at table.new k ≡ fold_mux (bit_at table.old test) (bit_at table.old a) (bit_at table.old b)) }
    ensures grows { OnOk result (Grows table.old table.new) }
{
    let differ = table.xor(a, b)?;
    let turned = table.and(test, differ)?;
    table.xor(b, turned)
}

/// Whether two numbers are equal, from their bits at one place and whether they are equal below.
#[tactic(auto, using(nodes::proofs::GrowthLemmas::stays, nodes::proofs::GrowthLemmas::still_within, nodes::proofs::GrowthLemmas::grows_on))]
pub(crate) fn still_equal(
    table: &mut Table,
    equal: usize,
    a: usize,
    b: usize,
) -> Result<usize, AllocError>
    requires below { equal < length table.old }
    requires left { a < length table.old }
    requires right { b < length table.old }
    ensures within { IfOk result (λ k. k < length table.new) }
    ensures bit { IfOk result (λ k. bit_at table.new k ≡ fold_and (bit_at table.old equal) (fold_not (fold_xor (bit_at table.old a) (bit_at table.old b)))) }
    ensures grows { OnOk result (Grows table.old table.new) }
{
    let differ = table.xor(a, b)?;
    let same = table.not(differ)?;
    table.and(equal, same)
}

/// Whether a number is less than another, from their bits at one place and whether it is less
/// below.
#[tactic(auto, using(nodes::proofs::GrowthLemmas::stays, nodes::proofs::GrowthLemmas::still_within, nodes::proofs::GrowthLemmas::grows_on))]
pub(crate) fn still_less(
    table: &mut Table,
    less: usize,
    a: usize,
    b: usize,
) -> Result<usize, AllocError>
    requires below { less < length table.old }
    requires left { a < length table.old }
    requires right { b < length table.old }
    ensures within { IfOk result (λ k. k < length table.new) }
    ensures bit { IfOk result (λ k. bit_at table.new k ≡ fold_mux (fold_xor (bit_at table.old a) (bit_at table.old b)) (bit_at table.old b) (bit_at table.old less)) }
    ensures grows { OnOk result (Grows table.old table.new) }
{
    let differ = table.xor(a, b)?;
    mux(table, differ, b, less)
}

/// A bit of a sum, and the carry to the next.
#[derive(Clone, Copy)]
pub(crate) struct Sum {
    pub(crate) bit: usize,
    pub(crate) carry: usize,
}

/// The sum of two bits and a carry.
#[tactic(auto, using(nodes::proofs::GrowthLemmas::stays, nodes::proofs::GrowthLemmas::still_within, nodes::proofs::GrowthLemmas::grows_on))]
pub(crate) fn full_adder(
    table: &mut Table,
    carry: usize,
    a: usize,
    b: usize,
) -> Result<Sum, AllocError>
    requires carry { carry < length table.old }
    requires left { a < length table.old }
    requires right { b < length table.old }
    ensures bit_within { IfOk result (λ s. s.bit < length table.new) }
    ensures carry_within { IfOk result (λ s. s.carry < length table.new) }
    ensures bit { IfOk result (λ s. bit_at table.new s.bit ≡ fold_xor (fold_xor (bit_at table.old a) (bit_at table.old b)) (bit_at table.old carry)) }
    ensures carry { IfOk result (λ s. bit_at table.new s.carry ≡ fold_or (fold_and (bit_at table.old a) (bit_at table.old b)) (fold_and (bit_at table.old carry) (fold_xor (bit_at table.old a) (bit_at table.old b)))) }
    ensures grows { OnOk result (Grows table.old table.new) }
{
    let differ = table.xor(a, b)?;
    let bit = table.xor(differ, carry)?;
    let both = table.and(a, b)?;
    let passed = table.and(carry, differ)?;
    let carry = or(table, both, passed)?;
    Ok(Sum { bit, carry })
}
