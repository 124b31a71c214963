//! The value of a term under an input.
ghost use Rattle.std.specs.Prelude.{◌≡◌, IfOk, IfSome, length};
ghost use Rattle.terms.specs.Value as spec;
ghost use Rattle.terms.specs.Value.{ReadsBelow};
ghost use Rattle.terms.specs.Memo.{AreValues};

use crate::memo::Memo;
use crate::operate::{one_of, two_of};
use crate::term::{Node, Term};
use bitnum::Num;
use places::Home;
use std::alloc::{AllocError, Global};

/// The value under an input, by recursion. It takes no memory, and walks each path, so it takes long on terms that
/// share much: see `value_once`.
pub fn value<H: Home>(t: &Term<H>, input: &[u8]) -> Num
    requires { ReadsBelow (length input.now) t.now }
    ensures { result ≡ spec.value_of t.now input.now }
{
    match t.node() {
        Node::Constant(n) => *n,
        Node::Input(k) => Num::new(8, u64::from(input[usize::from(*k)])),
        Node::One(op, a) => one_of(*op, value(a, input)),
        Node::Two(op, a, b) => two_of(*op, value(a, input), value(b, input)),
        Node::Choice(c, a, b) => {
            if value(c, input).bits() == 1 {
                value(a, input)
            } else {
                value(b, input)
            }
        }
    }
}

/// What `value` gives, with one visit to each node, however often it is shared.
pub fn value_once<H: Home>(alloc: Global, t: &Term<H>, input: &[u8]) -> Result<Num, AllocError>
    requires { ReadsBelow (length input.now) t.now }
    ensures { IfOk result (λ n. n ≡ spec.value_of t.now input.now) }
{
    let mut memo = Memo::new(alloc);
    value_in(&mut memo, t, input)
}

// The value of a term that the memo knows.
fn known_value<H: Home>(memo: &Memo<H, Num>, t: &Term<H>, input: &[u8]) -> Option<Num>
    requires { AreValues memo.now input.now }
    ensures { IfSome result (λ n. n ≡ spec.value_of t.now input.now) }
{
    let known = memo.get(t)?;
    Some(*known)
}

// The value, which the memo knows from now on.
fn noted<H: Home>(
    memo: &mut Memo<H, Num>,
    t: &Term<H>,
    value: Num,
    input: &[u8],
) -> Result<Num, AllocError>
    requires value { value ≡ spec.value_of t.now input.now }
    requires known { AreValues memo.old input.now }
    ensures value { IfOk result (λ n. n ≡ spec.value_of t.now input.now) }
    ensures known { AreValues memo.new input.now }
{
    memo.put(t, value)?;
    Ok(value)
}

/// What `value` gives, where a memo remembers the values of nodes under the same input. What it visits it remembers.
pub fn value_in<H: Home>(
    memo: &mut Memo<H, Num>,
    t: &Term<H>,
    input: &[u8],
) -> Result<Num, AllocError>
    requires reads { ReadsBelow (length input.now) t.now }
    requires known { AreValues memo.old input.now }
    ensures value { IfOk result (λ n. n ≡ spec.value_of t.now input.now) }
    ensures known { AreValues memo.new input.now }
{
    if let Some(known) = known_value(memo, t, input) {
        return Ok(known);
    }
    match t.node() {
        Node::Constant(n) => Ok(*n),
        Node::Input(k) => Ok(Num::new(8, u64::from(input[usize::from(*k)]))),
        Node::One(op, a) => {
            let n = one_of(*op, value_in(memo, a, input)?);
            noted(memo, t, n, input)
        }
        Node::Two(op, a, b) => {
            let m = value_in(memo, a, input)?;
            let n = value_in(memo, b, input)?;
            noted(memo, t, two_of(*op, m, n), input)
        }
        Node::Choice(c, a, b) => {
            if value_in(memo, c, input)?.bits() == 1 {
                let n = value_in(memo, a, input)?;
                noted(memo, t, n, input)
            } else {
                let n = value_in(memo, b, input)?;
                noted(memo, t, n, input)
            }
        }
    }
}
