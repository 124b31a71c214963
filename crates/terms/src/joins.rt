//! Joins of bytes.
ghost use Rattle.std.specs.Prelude.{◌≡◌, ℕ, List, ◌+◌, ◌*◌, ◌≤◌, ◌<◌, IfOk, IsTrue, ◌↔◌, is_some, [], length, map, true};
ghost use Rattle.std.specs.List.{list_all};
ghost use Rattle.std.specs.Option.{option_copied};
ghost use Rattle.terms.specs.Tree.{width_of, one, IsTree};
ghost use Rattle.terms.specs.Value.{value_of, ReadsBelow};
ghost use Rattle.terms.specs.Folding.{constant_of};
ghost use Rattle.terms.specs.Same as alike;
ghost use Rattle.terms.specs.Joining as joining;
ghost use Rattle.terms.specs.Joining.{AreBytes, ReadBelow};

use crate::alike::same;
use crate::build::{constant, plain_two};
use crate::operate::{joined, truth};
use crate::term::{Binary, Node, Term, Terms, Unary};
use bitnum::Num;
use places::Home;
use std::alloc::AllocError;

fn are_constants<H: Home>(bytes: &[Term<H>]) -> bool
    ensures { result ≡ list_all (λ u. is_some (constant_of u)) bytes.now }
{
    bytes.iter().all(|t| t.as_constant().is_some())
}

/// The numbers in a row, where the bytes are constants.
fn joined_number<H: Home>(bytes: &[Term<H>]) -> Num
    requires constants { list_all (λ u. is_some (constant_of u)) bytes.now ≡ true }
    requires widths { AreBytes bytes.now }
    requires most { length bytes.now ≤ 8 }
    ensures number { result ≡ value_of (joining.spine bytes.now) [] }
    ensures width { 0 < length bytes.now → result.width ≡ 8 * length bytes.now }
{
    match bytes.split_first() {
        None => truth(false),
        Some((t, rest)) => match t.as_constant() {
            None => truth(false),
            Some(n) if rest.is_empty() => n,
            Some(n) => joined(n, joined_number(rest)),
        },
    }
}

/// Whether a term is byte j of another.
fn is_byte_of<H: Home>(t: &Term<H>, j: u8, whole: &Term<H>) -> bool
    ensures { IsTrue result ↔ (one (Unary.Byte j) whole.now ≡ t.now) }
{
    match t.node() {
        Node::One(Unary::Byte(k), a) => *k == j && same(a, whole),
        _ => false,
    }
}

fn is_byte<H: Home>(t: &Term<H>, j: u8, whole: &Term<H>) -> bool
    ensures { result ≡ alike.same (one (Unary.Byte j) whole.now) t.now }
{
    is_byte_of(t, j, whole)
}

fn are_bytes_of<H: Home>(whole: &Term<H>, j: u8, bytes: &[Term<H>]) -> bool
    requires { j + length bytes.now < 256 }
    ensures { result ≡ joining.are_bytes_of whole.now j bytes.now }
{
    match bytes.split_first() {
        None => true,
        Some((t, rest)) => is_byte(t, j, whole) && are_bytes_of(whole, j + 1, rest),
    }
}

fn is_whole<H: Home>(whole: &Term<H>, bytes: &[Term<H>]) -> bool
    requires { length bytes.now ≤ 8 }
    ensures { result ≡ joining.is_whole whole.now bytes.now }
{
    usize::from(whole.width()) == 8 * bytes.len() && are_bytes_of(whole, 0, bytes)
}

/// The bytes in a row, the first one lowest.
fn spine<H: Home>(terms: &Terms<H>, bytes: &[Term<H>]) -> Result<Term<H>, AllocError>
    requires widths { AreBytes bytes.now }
    requires most { length bytes.now ≤ 8 }
    ensures { IfOk result (λ t. t ≡ joining.spine bytes.now) }
{
    match bytes.split_first() {
        None => constant(terms, truth(false)),
        Some((t, rest)) => {
            if rest.is_empty() {
                t.copy()
            } else {
                plain_two(terms, Binary::Join, t, &spine(terms, rest)?)
            }
        }
    }
}

/// The term of which the first one is a byte.
fn first_inside<H: Home>(bytes: &[Term<H>]) -> Option<&Term<H>>
    ensures { option_copied result ≡ joining.first_inside bytes.now }
{
    match bytes.split_first() {
        None => None,
        Some((t, _)) => inside_byte(t),
    }
}

fn inside_byte<H: Home>(t: &Term<H>) -> Option<&Term<H>>
    ensures { option_copied result ≡ joining.inside_byte t.now }
{
    match t.node() {
        Node::One(Unary::Byte(_), whole) => Some(whole),
        _ => None,
    }
}

fn fold_whole<H: Home>(terms: &Terms<H>, bytes: &[Term<H>]) -> Result<Term<H>, AllocError>
    requires widths { AreBytes bytes.now }
    requires most { length bytes.now ≤ 8 }
    ensures { IfOk result (λ r. r ≡ joining.fold_whole (joining.first_inside bytes.now) bytes.now) }
{
    match first_inside(bytes) {
        Some(whole) if is_whole(whole, bytes) => whole.copy(),
        _ => spine(terms, bytes),
    }
}

#[tactic(auto, unfolding(crate::specs::Joining::folded_join))]
fn fold_join<H: Home>(terms: &Terms<H>, bytes: &[Term<H>]) -> Result<Term<H>, AllocError>
    requires widths { AreBytes bytes.now }
    requires most { length bytes.now ≤ 8 }
    ensures { IfOk result (λ t. t ≡ joining.folded_join bytes.now) }
{
    if are_constants(bytes) {
        constant(terms, joined_number(bytes))
    } else {
        fold_whole(terms, bytes)
    }
}

/// The number whose bytes these are, the first one lowest.
pub fn join<H: Home>(terms: &Terms<H>, bytes: &[Term<H>]) -> Result<Term<H>, AllocError>
    requires some { 0 < length bytes.now }
    requires widths { AreBytes bytes.now }
    requires most { length bytes.now ≤ 8 }
    ensures folded { IfOk result (λ t. t ≡ joining.folded_join bytes.now) }
    ensures width { IfOk result (λ t. width_of t ≡ 8 * length bytes.now) }
    ensures tree { IfOk result (λ t. IsTree t) }
    ensures reads { (count : ℕ) → ReadBelow count bytes.now → IfOk result (λ t. ReadsBelow count t) }
    ensures value { IfOk result (λ t. (input : List ℕ) → value_of t input ≡ joining.joined_of (map (λ u. value_of u input) bytes.now)) }
{
    let _first = bytes[0].width();
    let t = fold_join(terms, bytes)?;
    let _width = t.width();
    Ok(t)
}
