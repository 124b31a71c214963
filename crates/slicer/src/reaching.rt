//! What follows from given numbers.
ghost use Rattle.std.specs.Prelude.{◌≡◌, ◌<◌, true, false, length, replicate, IfOk, vec_len};
ghost use Rattle.least.specs.Sets.{has, Exactly, Only, Within};
ghost use Rattle.slicer.specs.Reached.{Reached, AreWithin, FollowsAt};

use least::{Rules, add, least_set};
use std::alloc::{AllocError, Global};

/// The second number follows from the first.
#[derive(Clone, Copy)]
pub struct Arrow {
    pub from: usize,
    pub to: usize,
}

/// Numbers that are given, and what follows from what.
#[derive(Drop)]
struct Follows<'a> {
    given: &'a [bool],
    arrows: &'a [Arrow],
    ghost within: { AreWithin (length given.now) arrows.now },
}

impl<'a> Follows<'a> {
    /// A number that is given is reached.
    fn begin(&self, number: usize, set: &mut [bool])
        requires number { number < length self.now.given.now }
        requires size { length set.old ≡ length self.now.given.now }
        requires only { Only (Reached self.now.arrows.now (has self.now.given.now)) (has set.old) }
        ensures only { Only (Reached self.now.arrows.now (has self.now.given.now)) (has set.new) }
        ensures grows { Within (has set.old) (has set.new) }
        ensures begins { has self.now.given.now number ≡ true → has set.new number ≡ true }
    {
        if self.given[number] {
            add(set, number);
        }
    }

    /// What follows from a number that is reached is reached. The last arrow is the first.
    fn follow(&self, at: usize, set: &mut [bool])
        requires at { at < length self.now.arrows.now }
        requires size { length set.old ≡ length self.now.given.now }
        requires only { Only (Reached self.now.arrows.now (has self.now.given.now)) (has set.old) }
        ensures only { Only (Reached self.now.arrows.now (has self.now.given.now)) (has set.new) }
        ensures grows { Within (has set.old) (has set.new) }
        ensures follows { FollowsAt self.now.arrows.now at (has set.old) (has set.new) }
    {
        let arrow = self.arrows[self.arrows.len() - 1 - at];
        if set[arrow.from] {
            add(set, arrow.to);
        }
    }
}

impl<'a> Rules for Follows<'a> {
    ghost use Rattle.std.specs.Prelude.{◌≡◌, ◌+◌, length};
    ghost use Rattle.least.specs.Sets.{has};
    ghost use Rattle.slicer.specs.Reached.{Reached, FiresAt};
    ghost use Rattle.slicer.specs.ReachedLaws.{Fires-more, Reached-least};

    ghost size_of = { λ f. length f.given.now };

    ghost rules_of = { λ f. length f.given.now + length f.arrows.now };

    ghost Fits = { λ f. Unit {0} };

    ghost Given = { λ f k. Reached f.arrows.now (has f.given.now) k };

    ghost Fires = { λ f rule S T. FiresAt f.arrows.now f.given.now rule S T };

    fn size(&self) -> usize {
        self.given.len()
    }

    fn rules(&self) -> usize {
        self.given.len() + self.arrows.len()
    }

    fn apply(&self, rule: usize, set: &mut [bool]) {
        if rule < self.given.len() {
            self.begin(rule, set);
            return;
        }
        self.follow(rule - self.given.len(), set);
    }

    ghost more = { λ f rule S T U V. Fires-more f.arrows.now f.given.now rule S T U V };

    ghost least = { λ f fits S fires k. Reached-least f.arrows.now f.given.now S fires k };
}

/// The empty set of the numbers below a size.
pub fn empty(alloc: Global, size: usize) -> Result<Vec<bool>, AllocError>
    ensures { IfOk result (λ set. set.items ≡ replicate size false) }
{
    vec![in alloc; false; size]
}

/// The numbers that are given, and those that follow from them.
pub fn reached(alloc: Global, given: &[bool], arrows: &[Arrow]) -> Result<Vec<bool>, AllocError>
    requires { AreWithin (length given.now) arrows.now }
    ensures exact { IfOk result (λ set. Exactly (Reached arrows.now (has given.now)) (has set.items)) }
    ensures len { IfOk result (λ set. vec_len set ≡ length given.now) }
{
    let follows = Follows { given, arrows };
    least_set(alloc, &follows)
}
