//! Which terms are one tree, and where a table of terms looks for them.
ghost use Rattle.std.specs.Prelude.{◌≡◌, ◌↔◌, IsTrue};
ghost use Rattle.terms.specs.Same as alike;
ghost use Rattle.terms.specs.Memo.{AreMatches};

use crate::memo::Memo;
use crate::term::{Node, Shape, Term, same_place};
use places::{Home, Place};
use std::hash::{Hash, Hasher};

// For each term that was met, the place of another term that is the same tree.
type Matches<H> = Memo<H, Place<Shape, H>>;

/// Whether two terms are one tree. It answers at once where they have one place, and where their digests differ. Else
/// it visits each pair of nodes once; where there is no memory to remember the pairs it visits them again.
pub fn same<H: Home>(a: &Term<H>, b: &Term<H>) -> bool
    ensures { IsTrue result ↔ (a.now ≡ b.now) }
{
    if same_place(a, b) {
        return true;
    }
    if a.digest() != b.digest() {
        return false;
    }
    let mut met = Memo::new(a.alloc());
    same_in(&mut met, a, b)
}

// Whether the two were found to be one tree before.
fn matched<H: Home>(met: &Matches<H>, a: &Term<H>, b: &Term<H>) -> bool
    requires { AreMatches met.now }
    ensures { IsTrue result → a.now ≡ b.now }
{
    match met.get(a) {
        Some(place) => place.same(b.place()),
        None => false,
    }
}

// Remembers that the two are one tree.
fn noted<H: Home>(met: &mut Matches<H>, a: &Term<H>, b: &Term<H>) -> bool
    requires one { a.now ≡ b.now }
    requires met { AreMatches met.old }
    ensures yes { IsTrue result }
    ensures met { AreMatches met.new }
{
    let _remembered = met.put(a, b.place().again());
    true
}

fn same_in<H: Home>(met: &mut Matches<H>, a: &Term<H>, b: &Term<H>) -> bool
    requires { AreMatches met.old }
    ensures same { IsTrue result ↔ (a.now ≡ b.now) }
    ensures met { AreMatches met.new }
{
    if same_place(a, b) || matched(met, a, b) {
        return true;
    }
    if a.digest() != b.digest() {
        return false;
    }
    match (a.node(), b.node()) {
        (Node::Constant(m), Node::Constant(n)) => m == n,
        (Node::Input(j), Node::Input(k)) => j == k,
        (Node::One(o, x), Node::One(p, y)) => {
            if o != p {
                return false;
            }
            if !same_in(met, x, y) {
                return false;
            }
            noted(met, a, b)
        }
        (Node::Two(o, x, y), Node::Two(p, z, w)) => {
            if o != p {
                return false;
            }
            if !same_in(met, x, z) {
                return false;
            }
            if !same_in(met, y, w) {
                return false;
            }
            noted(met, a, b)
        }
        (Node::Choice(c, x, y), Node::Choice(d, z, w)) => {
            if !same_in(met, c, d) {
                return false;
            }
            if !same_in(met, x, z) {
                return false;
            }
            if !same_in(met, y, w) {
                return false;
            }
            noted(met, a, b)
        }
        _ => false,
    }
}

/// Whether two terms are one tree, as the definitions' own test says it.
pub(crate) fn is_same<H: Home>(a: &Term<H>, b: &Term<H>) -> bool
    ensures { result ≡ alike.same a.now b.now }
{
    same(a, b)
}

impl<H: Home> PartialEq for Term<H> {
    ghost use Rattle.terms.specs.Same.{same, same_equivalence};
    ghost use Rattle.std.specs.Cmp.{partial_equiv_from_equiv};

    ghost eq = { same };

    ghost laws = { partial_equiv_from_equiv same_equivalence };

    fn eq(&self, other: &Term<H>) -> bool {
        is_same(self, other)
    }
}

impl<H: Home> Eq for Term<H> {
    ghost use Rattle.terms.specs.Same.{same_equivalence};

    ghost laws = { same_equivalence };
}

impl<H: Home> Hash for Term<H> {
    ghost use Rattle.std.specs.Hash as fed;
    ghost use Rattle.terms.specs.Digest.{digest_of};
    ghost use Rattle.terms.specs.Same.{same_digests};

    ghost hash_input = { λ t. fed.u64 (digest_of t) };

    ghost respects_eq = { same_digests };

    fn hash<S: Hasher>(&self, state: &mut S) {
        state.write_u64(self.digest());
    }
}
