//! Laws of symbolic bytes: cutting a value and joining bytes agree with what a run does to the values and bytes that they
//! stand for, under each input and the results of the skipped calls.
#![tactic(auto)]

ghost use Rattle.std.specs.Prelude.{◌≡◌, ◌<◌, ℕ, List, None, Some, length, map, if◌then◌else◌};
ghost use Rattle.terms.specs.Tree.{Tree};
ghost use Rattle.terms.specs.Value.{is_met_by};
ghost use Rattle.flat_ir.specs.declared.nodes.RegType.{RegType};
ghost use Rattle.flat_ir.specs.Registers.{cut, first_of, joined};
ghost use Rattle.sym_bytes.specs.Answers.{Value, Test, Mixed};
ghost use Rattle.sym_bytes.specs.Byte.{SymByte};
ghost use Rattle.sym_bytes.specs.Cutting.{cut_value};
ghost use Rattle.sym_bytes.specs.Fitting.{HasBytes, IsValue};
ghost use Rattle.sym_bytes.specs.Joining.{join_bytes};
ghost use Rattle.sym_bytes.specs.Under.{Results, byte_under, value_under};
ghost use Rattle.sym_bytes.specs.Value.{SymValue};
ghost use Rattle.byte_laws.specs.Types.{AreBytes, AreReturned, HasSize};

/// The bytes of a value stand for the bytes of what the value stands for.
pub fn cuts_give_the_bytes()
    ensures { (input : List ℕ) (results : Results) (v : SymValue) (n : ℕ) → IsValue v → HasBytes v n
        → map (byte_under input results) (cut_value v n) ≡ first_of n 0 (cut (value_under input results v)) }
{}

/// Where bytes make a value it stands for what the bytes that they stand for make; where a test decides, they make the value
/// under the inputs that meet the test, and a mixture under the others; where they are mixed, so are those.
pub fn joins_give_the_value()
    ensures value { (input : List ℕ) (results : Results) (t : RegType) (bs : List SymByte) (v : SymValue)
        → AreBytes bs → 0 < length bs → HasSize t (length bs) → AreReturned results bs
        → join_bytes bs t ≡ Value v
        → joined t (map (byte_under input results) bs) ≡ Some (value_under input results v) }
    ensures test { (input : List ℕ) (results : Results) (t : RegType) (bs : List SymByte) (test : Tree) (v : SymValue)
        → AreBytes bs → 0 < length bs → HasSize t (length bs) → AreReturned results bs
        → join_bytes bs t ≡ Test test v
        → joined t (map (byte_under input results) bs) ≡ (if is_met_by input test then Some (value_under input results v) else None) }
    ensures mixed { (input : List ℕ) (results : Results) (t : RegType) (bs : List SymByte)
        → AreBytes bs → 0 < length bs → HasSize t (length bs) → AreReturned results bs
        → join_bytes bs t ≡ Mixed
        → joined t (map (byte_under input results) bs) ≡ None }
{}
