//! Where values stand in memory: the rules of sizes, alignments and places.
#![tactic(auto)]

ghost use Rattle.std.specs.Prelude.{◌≡◌, ◌+◌, ◌*◌, ◌<◌, ◌≤◌, ◌^◌};
ghost use Rattle.layout.specs.Layout as spec;

/// The next place at or behind `offset` that is a multiple of `align`, both in bytes.
///
/// It is where a struct's field of that alignment stands if the fields before it end at `offset`
/// (LLVM Language Reference, "Structure Type": the padding is what the data layout asks for).
pub fn aligned(offset: u64, align: u64) -> u64
    requires some { 1 ≤ align }
    requires fits { offset + align ≤ 2 ^ 64 }
    ensures { result ≡ spec.aligned offset align }
{
    (offset + (align - 1)) / align * align
}
