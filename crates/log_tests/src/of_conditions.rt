ghost use Rattle.std.specs.Prelude.{◌≡◌, IfOk};
ghost use Rattle.terms.specs.Tree.{width_of};

use bitnum::Num;
use places::{Home, Opened};
use std::alloc::{AllocError, Global};
use std::marker::Brand;
use std::test::Fail;
use term_store::{Added, Conditions};
use terms::{Shape, Term, Terms, constant, eq, input_byte, not, same};

/// One bit, whether the first byte of the input is a number.
fn first_is<H: Home>(terms: &Terms<H>, n: u8) -> Result<Term<H>, AllocError>
    ensures { IfOk result (λ t. width_of t ≡ 1) }
{
    let byte = input_byte(terms, 0)?;
    let number = constant(terms, Num::new(8, u64::from(n)))?;
    let equal = eq(terms, &byte, &number)?;
    Ok(equal)
}

/// What is answered where a test, another one, the first again and its negation are added.
fn four_added<H: Home>(
    terms: &Terms<H>,
    known: &mut Conditions<H>,
) -> Result<[Added; 4], AllocError> {
    let one = first_is(terms, 1)?;
    let two = first_is(terms, 2)?;
    let denial = not(terms, &one)?;
    let first = known.add(terms, &one)?;
    let second = known.add(terms, &two)?;
    let again = known.add(terms, &one)?;
    let denied = known.add(terms, &denial)?;
    Ok([first, second, again, denied])
}

fn begins_with<H: Home>(list: &[Term<H>], t: &Term<H>) -> bool {
    match list.first() {
        Some(first) => same(first, t),
        None => false,
    }
}

/// The answers, how many conjuncts a fork and a list have, and whether the list begins with the first test.
fn told<H: Home>(
    opened: Opened<Shape>,
    alloc: Global,
) -> Result<([Added; 4], usize, usize, bool), AllocError>
    requires { opened.seen.book ≡ H.book }
{
    let terms = Terms::<H>::new(alloc, opened.named::<H>());
    let mut known = Conditions::new(alloc);
    let answers = four_added(&terms, &mut known)?;
    let fork = known.fork()?;
    let list = known.to_list()?;
    let one = first_is(&terms, 1)?;
    let begins = begins_with(list.as_slice(), &one);
    Ok((answers, fork.len(), list.len(), begins))
}

#[test]
fn a_list_has_each_conjunct_once(rt: HostRuntime) -> Result<(), Fail> {
    let (answers, forked, listed, begins) = told::<Brand>(Opened::new(), rt.alloc())?;
    assert!(rt; answers[0] == Added::Appended);
    assert!(rt; answers[1] == Added::Appended);
    assert!(rt; answers[2] == Added::Held);
    assert!(rt; answers[3] == Added::Contradicted);
    assert_eq!(rt; (forked, listed, begins), (2, 2, true));
    Ok(())
}
