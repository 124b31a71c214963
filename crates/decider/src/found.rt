ghost use Rattle.std.specs.Prelude.{◌≡◌, ◌+◌, ◌-◌, ◌*◌, ◌<◌, ◌≤◌, ℕ, Bool, List, false, All, IfOk, length, take, slice_index_or};
ghost use Rattle.rows.specs.Numbers.{read};
ghost use Rattle.search.specs.Models.{assignment};
ghost use Rattle.terms.specs.Tree.{Tree};
ghost use Rattle.term_bits.specs.TermBits.{input_bits};
ghost use Rattle.condition_verdicts.specs.Inputs as spec;
ghost use Rattle.decider.specs.Found.{AreInputsOf, HasBits, IsPlace};

use bit_gates::Blasted;
use plain_list::Sequence;
use std::alloc::{AllocError, Global};

/// How many bits 64 bytes of input have.
const INPUT_BITS: usize = 512;

/// The number of a bit of the input: byte after byte, the most significant bit first.
fn bit_number(place: (u8, u8)) -> usize
    requires { IsPlace place }
    ensures within { result < 512 }
    ensures number { result ≡ 8 * place.0 + (7 - place.1) }
{
    let (byte, bit) = place;
    8 * usize::from(byte) + (7 - usize::from(bit))
}

/// Whether a variable is true.
fn is_true(values: &[bool], variable: u64) -> bool
    ensures { result ≡ assignment values.now variable }
{
    matches!(values.get(variable as usize), Some(true))
}

/// The bits of 64 bytes of input, byte after byte, the most significant bit first: those at the
/// places have the values of their variables, and the others are 0.
fn found_bits(
    alloc: Global,
    order: &[u64],
    places: &[(u8, u8)],
    values: &[bool],
) -> Result<Vec<bool>, AllocError>
    requires paired { length order.now ≡ length places.now }
    requires places { All IsPlace places.now }
    ensures sized { IfOk result (λ set. length set.items ≡ 512) }
    ensures bits { (c : List Tree) → AreInputsOf c order.now places.now → IfOk result (λ set. HasBits c values.now set.items) }
{
    let mut set = vec![in alloc; false; INPUT_BITS]?;
    for n in 0..places.len() {
        let at = bit_number(places[n]);
        let value = is_true(values, order[n]);
        set[at] = value;
    }
    Ok(set)
}

/// The byte with these bits, the most significant first.
fn byte_of(bits: &[bool]) -> u8
    requires { length bits.now ≡ 8 }
    ensures { (i : ℕ → Bool) (k : ℕ) → ((p : ℕ) → p < 8 → slice_index_or bits.now p false ≡ i (8 * k + p)) → result ≡ read i (input_bits k) }
{
    let mut byte = 0;
    for &bit in bits {
        byte = 2 * byte + u8::from(bit);
    }
    byte
}

/// The first bytes of the input that a model names.
pub(crate) fn found_input(
    alloc: Global,
    blasted: &Blasted,
    values: &[bool],
    inputs: u8,
) -> Result<Sequence<u8>, AllocError>
    requires paired { length blasted.now.order.items ≡ length blasted.now.bits.items }
    requires places { All IsPlace blasted.now.bits.items }
    requires inputs { inputs ≤ 64 }
    ensures { (c : List Tree) → AreInputsOf c blasted.now.order.items blasted.now.bits.items → IfOk result (λ input. input ≡ take inputs (spec.found_input c values.now)) }
{
    let set = found_bits(alloc, &blasted.order, &blasted.bits, values)?;
    let mut input = Sequence::new(alloc);
    for k in 0..usize::from(inputs) {
        input.push(byte_of(&set[8 * k..8 * k + 8]))?;
    }
    Ok(input)
}
