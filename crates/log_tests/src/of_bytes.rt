ghost use Rattle.std.specs.Prelude.{◌≡◌, ◌≤◌, ◌<◌, length};
ghost use Rattle.flat_ir.specs.Registers.{bytes_of_type};
ghost use Rattle.sym_bytes.specs.Fitting.{HasBytes};

use bitnum::Num;
use flat_ir::{ObjectName, RegType};
use places::{Home, Opened};
use plain_list::Sequence;
use std::alloc::{AllocError, Global};
use std::marker::Brand;
use std::test::Fail;
use sym_bytes::{
    Base, CallId, Joined, Pointer, SymByte, SymValue, ValueKind, cut_value, join_bytes,
};
use terms::{Shape, Terms, constant};

/// What bytes made, as a test compares it.
#[derive(Clone, Copy, Debug, PartialEq, Eq)]
enum Made {
    Number(u64),
    Pending(u32),
    Needs(usize),
    Test(Option<u64>),
    Mixed,
    Other,
}

fn value_made<H: Home>(v: &SymValue<H>) -> Made {
    match v.kind() {
        ValueKind::Int(t) => match t.as_constant() {
            Some(n) => Made::Number(n.bits()),
            None => Made::Other,
        },
        ValueKind::Ptr(_) => Made::Other,
        ValueKind::Pending(call, _) => Made::Pending(call.0),
    }
}

fn made_of<H: Home>(joined: &Joined<H>) -> Made {
    match joined {
        Joined::Value(v) => value_made(v),
        Joined::Needs(calls) => Made::Needs(calls.len()),
        Joined::Test(t, _) => match t.as_constant() {
            Some(n) => Made::Test(Some(n.bits())),
            None => Made::Test(None),
        },
        Joined::Mixed => Made::Mixed,
    }
}

/// What some bytes make of a type.
fn make<H: Home>(terms: &Terms<H>, bytes: &[SymByte<H>], of: RegType) -> Result<Made, AllocError>
    requires some { 0 < length bytes.now }
    requires most { length bytes.now ≤ 8 }
    requires size { length bytes.now ≡ bytes_of_type of }
{
    let joined = join_bytes(terms, bytes, of)?;
    Ok(made_of(&joined))
}

fn number_again<H: Home>(terms: &Terms<H>) -> Result<Made, AllocError> {
    let v = SymValue::int(constant(terms, Num::new(32, 0x0102_0304))?);
    let bytes = cut_value(terms, &v, 4)?;
    make(terms, bytes.as_slice(), RegType::Int(32))
}

fn zero_as_pointer<H: Home>(terms: &Terms<H>) -> Result<Made, AllocError> {
    let v = SymValue::int(constant(terms, Num::new(64, 0))?);
    let bytes = cut_value(terms, &v, 8)?;
    make(terms, bytes.as_slice(), RegType::Ptr)
}

fn pointer_again<H: Home>(terms: &Terms<H>) -> Result<Made, AllocError> {
    let offset = constant(terms, Num::new(64, 5))?;
    let v = SymValue::ptr(Pointer::new(Base::Object(ObjectName::Global(0)), offset));
    let bytes = cut_value(terms, &v.copy()?, 8)?;
    make(terms, bytes.as_slice(), RegType::Ptr)
}

fn pending_again<H: Home>(terms: &Terms<H>) -> Result<Made, AllocError> {
    let v = SymValue::pending(CallId(3), RegType::Int(32));
    let bytes = cut_value(terms, &v, 4)?;
    make(terms, bytes.as_slice(), RegType::Int(32))
}

/// Two bytes as a number of 16 bits.
fn two<H: Home>(
    terms: &Terms<H>,
    first: SymByte<H>,
    second: SymByte<H>,
) -> Result<Made, AllocError> {
    let mut bytes = Sequence::of_one(terms.alloc(), first)?;
    bytes.push(second)?;
    make(terms, bytes.as_slice(), RegType::Int(16))
}

fn small<H: Home>(terms: &Terms<H>) -> Result<SymByte<H>, AllocError> {
    let t = constant(terms, Num::new(8, 1))?;
    Ok(SymByte::int(t))
}

fn part_of_a_result<H: Home>(terms: &Terms<H>) -> Result<Made, AllocError> {
    two(
        terms,
        small(terms)?,
        SymByte::pending(CallId(3), RegType::Int(32), 1),
    )
}

fn part_of_a_pointer<H: Home>(terms: &Terms<H>) -> Result<Made, AllocError> {
    let pointer = Pointer::new(Base::Null, constant(terms, Num::new(64, 0))?);
    two(terms, SymByte::of_pointer(pointer, 0), small(terms)?)
}

fn joins<H: Home>(opened: Opened<Shape>, alloc: Global) -> Result<[Made; 6], AllocError>
    requires { opened.seen.book ≡ H.book }
{
    let terms = Terms::<H>::new(alloc, opened.named::<H>());
    let number = number_again(&terms)?;
    let zero = zero_as_pointer(&terms)?;
    let pointer = pointer_again(&terms)?;
    let pending = pending_again(&terms)?;
    let needs = part_of_a_result(&terms)?;
    let mixed = part_of_a_pointer(&terms)?;
    Ok([number, zero, pointer, pending, needs, mixed])
}

#[test]
fn bytes_make_their_value_again(rt: HostRuntime) -> Result<(), Fail> {
    let made = joins::<Brand>(Opened::new(), rt.alloc())?;
    assert_eq!(rt; made[0], Made::Number(0x0102_0304));
    assert_eq!(rt; made[1], Made::Test(Some(1)));
    assert_eq!(rt; made[2], Made::Test(Some(1)));
    assert_eq!(rt; made[3], Made::Pending(3));
    assert_eq!(rt; made[4], Made::Needs(1));
    assert_eq!(rt; made[5], Made::Mixed);
    Ok(())
}
