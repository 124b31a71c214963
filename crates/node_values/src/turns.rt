//! The sides of branches and switches, each a term of one bit.
ghost use Rattle.std.specs.Prelude.{◌≡◌, [], ◌∷◌, IfOk};
ghost use Rattle.std.specs.List.{All};
ghost use Rattle.terms.specs.Tree.{constant as constant_tree, width_of};
ghost use Rattle.sym_states.specs.Terms as spec;

use crate::comparing::is_equal;
use crate::making::truth_of;
use bitnum::{BinOp, Num};
use flat_ir::SwitchCase;
use places::Home;
use plain_list::Sequence;
use std::alloc::AllocError;
use terms::{Term, Terms, bin, constant, not};

/// The sides of a branch: the condition, and its negation.
///
/// # Errors
///
/// No memory.
pub fn branch_sides<H: Home>(terms: &Terms<H>, t: &Term<H>) -> Result<Sequence<Term<H>>, AllocError>
    ensures value { IfOk result (λ sides. sides ≡ spec.branch_sides t.now) }
    ensures widths { IfOk result (λ sides. All (λ s. width_of s ≡ 1) sides) }
{
    let truth = truth_of(terms, t)?;
    let other = not(terms, &truth)?;
    let mut sides = Sequence::new(terms.alloc());
    sides.push(truth)?;
    sides.push(other)?;
    Ok(sides)
}

// The value is a case's number.
fn case_side<H: Home>(
    terms: &Terms<H>,
    value: &Term<H>,
    case: SwitchCase,
) -> Result<Term<H>, AllocError>
    ensures value { IfOk result (λ t. t ≡ spec.is_equal value.now (constant_tree case.number)) }
    ensures width { IfOk result (λ t. width_of t ≡ 1) }
{
    let number = constant(terms, case.number)?;
    is_equal(terms, value, &number)
}

/// The value is the number of a case, for each in order.
///
/// # Errors
///
/// No memory.
pub fn case_sides<H: Home>(
    terms: &Terms<H>,
    value: &Term<H>,
    cases: &[SwitchCase],
) -> Result<Sequence<Term<H>>, AllocError>
    ensures value { IfOk result (λ sides. sides ≡ spec.case_sides value.now cases.now) }
    ensures widths { IfOk result (λ sides. All (λ s. width_of s ≡ 1) sides) }
{
    let mut sides = Sequence::new(terms.alloc());
    'cases: for case in cases {
        sides.push(case_side(terms, value, *case)?)?;
    }
    Ok(sides)
}

// The `and` of a term and the negation of another.
fn and_not<H: Home>(terms: &Terms<H>, a: &Term<H>, b: &Term<H>) -> Result<Term<H>, AllocError>
    requires first { width_of a.now ≡ 1 }
    requires second { width_of b.now ≡ 1 }
    ensures value { IfOk result (λ t. t ≡ spec.and_none a.now (b.now ∷ [])) }
    ensures width { IfOk result (λ t. width_of t ≡ 1) }
{
    let other = not(terms, b)?;
    bin(terms, BinOp::And, a, &other)
}

/// None of the terms is 1.
///
/// # Errors
///
/// No memory.
pub fn none_of<H: Home>(terms: &Terms<H>, sides: &[Term<H>]) -> Result<Term<H>, AllocError>
    requires { All (λ s. width_of s ≡ 1) sides.now }
    ensures value { IfOk result (λ t. t ≡ spec.none_of sides.now) }
    ensures width { IfOk result (λ t. width_of t ≡ 1) }
{
    let mut none = constant(terms, Num::new(1, 1))?;
    'sides: for side in sides {
        none = and_not(terms, &none, side)?;
    }
    Ok(none)
}

/// The sides of a switch: its cases in order, and the default.
///
/// # Errors
///
/// No memory.
pub fn switch_sides<H: Home>(
    terms: &Terms<H>,
    value: &Term<H>,
    cases: &[SwitchCase],
) -> Result<Sequence<Term<H>>, AllocError>
    ensures value { IfOk result (λ sides. sides ≡ spec.switch_sides value.now cases.now) }
    ensures widths { IfOk result (λ sides. All (λ s. width_of s ≡ 1) sides) }
{
    let mut sides = case_sides(terms, value, cases)?;
    let none = none_of(terms, sides.as_slice())?;
    sides.push(none)?;
    Ok(sides)
}
