//! The sides of a branch, a switch or a test, and the children that they make.
ghost use Rattle.std.specs.Prelude.{◌≡◌, ◌<◌, ◌≤◌, ◌∷◌, ◌++◌, [], length, map, vec_len, IfOk, OnOk};
ghost use Rattle.terms.specs.Tree.{width_of};
ghost use Rattle.term_store.specs.Condition.{answer, negation};
ghost use Rattle.leaves.specs.Fitting.{IsTermOf, AreTermsOf};
ghost use Rattle.sym_states.specs.Attempts.{took};
ghost use Rattle.sym_states.specs.Fitting.{StateFits, HaveOneBit};
ghost use Rattle.sym_states.specs.Sides as spec;
ghost use Rattle.state_sides.specs.Views.{context_of, state_seen, child_seen, step_seen, verdict_of};
ghost use Rattle.state_sides.specs.Offers.{offspring_seen, maybe_seen, tested_seen, IsOffer, taking};

use crate::states::{Child, Machine, State, Step};
use crate::telling::{opens, told_with};
use decider::{Decide, Verdict};
use leaves::{Cause, Leaf, LeafKind};
use places::Home;
use plain_list::Sequence;
use skip_records::Snapshot;
use std::alloc::{AllocError, Global};
use term_store::{Added, Conditions};
use terms::{Term, Terms, not, value_once};
use write_log::SymMemory;

/// A side that lives, or a condition whose verdict was spent.
#[derive(Drop)]
pub(crate) enum Offspring<H: Home> {
    Lives {
        side: usize,
        condition: Conditions<H>,
        kept: Sequence<u8>,
    },
    Spends(Conditions<H>),
}

/// One side is taken alone, or there are several, of a state.
#[derive(Drop)]
pub(crate) enum Offer<H: Home, K: SymMemory> {
    Alone(usize, State<H, K>),
    Several(State<H, K>, Vec<Offspring<H>>),
}

/// A test holds, or it fails, or it makes the answer.
#[derive(Drop)]
pub enum Tested<H: Home, K: SymMemory> {
    Good(State<H, K>),
    Bad(State<H, K>),
    Answered(Step<H, K>),
}

/// Whether the children of sides attempt the node again, as those of a test do, or take their way.
#[derive(Clone, Copy, Debug, PartialEq, Eq)]
pub enum Way {
    Stays,
    Takes,
}

fn by_verdict<H: Home>(
    verdict: Verdict,
    side: usize,
    condition: Conditions<H>,
) -> Option<Offspring<H>>
    ensures { maybe_seen result ≡ spec.by_verdict (verdict_of verdict) side condition }
{
    match verdict {
        Verdict::Sat(kept) => Some(Offspring::Lives {
            side,
            condition,
            kept,
        }),
        Verdict::Unsat => None,
        Verdict::Spent => Some(Offspring::Spends(condition)),
    }
}

// What child j of k gets of the shares.
fn share_of(shares: u64, k: u64, j: u64) -> u64
    requires { 0 < k }
    ensures { result ≡ spec.share_of shares k j }
{
    let more = if j < shares % k { 1 } else { 0 };
    shares / k + more
}

impl<H: Home, K: SymMemory> State<H, K> {
    /// An equal state, which shares its path, its callers, what was written before, and its condition.
    ///
    /// # Errors
    ///
    /// No memory.
    pub fn copy(&self, alloc: Global) -> Result<State<H, K>, AllocError>
        ensures { IfOk result (λ s. state_seen s ≡ state_seen self.now) }
    {
        Ok(State {
            frame: self.frame.copy(alloc)?,
            callers: self.callers.copy()?,
            memory: K::copy_log(&self.memory)?,
            snapshots: copy_snapshots(alloc, self.snapshots.as_slice())?,
            condition: self.condition.fork()?,
            kept: self.kept.copy(alloc)?,
            path: self.path.copy()?,
            left: self.left,
            shares: self.shares,
            target: self.target,
        })
    }
}

fn copy_snapshots<H: Home>(
    alloc: Global,
    snapshots: &[Snapshot<H>],
) -> Result<Sequence<Snapshot<H>>, AllocError>
    ensures { IfOk result (λ list. list ≡ snapshots.now) }
{
    let mut list = Sequence::new(alloc);
    'snapshots: for snapshot in snapshots {
        list.push(snapshot.copy(alloc)?)?;
    }
    Ok(list)
}

fn single<H: Home, K: SymMemory>(
    alloc: Global,
    mut state: State<H, K>,
    offspring: Offspring<H>,
) -> Result<Offer<H, K>, AllocError>
    ensures { IfOk result (λ o. IsOffer o (state_seen state) (spec.alone (offspring_seen offspring ∷ []) (state_seen state))) }
{
    match offspring {
        Offspring::Lives {
            side,
            condition,
            kept,
        } => {
            state.condition = condition;
            state.kept = kept;
            Ok(Offer::Alone(side, state))
        }
        Offspring::Spends(condition) => {
            let mut again = Vec::new(alloc);
            again.push(Offspring::Spends(condition))?;
            Ok(Offer::Several(state, again))
        }
    }
}

fn alone<H: Home, K: SymMemory>(
    alloc: Global,
    state: State<H, K>,
    mut offsprings: Vec<Offspring<H>>,
) -> Result<Offer<H, K>, AllocError>
    ensures { IfOk result (λ o. IsOffer o (state_seen state) (spec.alone (map offspring_seen offsprings.items) (state_seen state))) }
{
    if offsprings.len() != 1 {
        return Ok(Offer::Several(state, offsprings));
    }
    match offsprings.pop() {
        Some(offspring) => single(alloc, state, offspring),
        None => Ok(Offer::Several(state, offsprings)),
    }
}

fn add<H: Home>(
    offsprings: &mut Vec<Offspring<H>>,
    more: Option<Offspring<H>>,
) -> Result<(), AllocError>
    ensures { OnOk result (map offspring_seen offsprings.new.items ≡ map offspring_seen offsprings.old.items ++ maybe_seen more) }
{
    match more {
        Some(offspring) => {
            offsprings.push(offspring)?;
            Ok(())
        }
        None => Ok(()),
    }
}

impl<'a, H: Home, D: Decide> Machine<'a, H, D> {
    fn along<K: SymMemory>(
        &self,
        way: Way,
        side: usize,
        state: State<H, K>,
    ) -> Result<State<H, K>, AllocError>
        ensures { IfOk result (λ s. state_seen s ≡ taking (context_of self.now.scope) way side (state_seen state)) }
    {
        match way {
            Way::Stays => Ok(state),
            Way::Takes => self.took(side, state),
        }
    }

    fn child_of<K: SymMemory>(
        &self,
        way: Way,
        state: &State<H, K>,
        shares: u64,
        offspring: Offspring<H>,
    ) -> Result<Child<H, K>, AllocError>
        ensures { IfOk result (λ child. child_seen child ≡ spec.child_of (taking (context_of self.now.scope) way) (state_seen state.now) shares (offspring_seen offspring)) }
    {
        let alloc = self.terms.alloc();
        match offspring {
            Offspring::Lives {
                side,
                condition,
                kept,
            } => {
                let mut copy = state.copy(alloc)?;
                copy.condition = condition;
                copy.kept = kept;
                copy.shares = shares;
                Ok(Child::Go(self.along(way, side, copy)?))
            }
            Offspring::Spends(condition) => {
                let told = told_with(alloc, None, condition, state)?;
                let cause = Cause::Solver;
                Ok(Child::Stop(Leaf::new(LeafKind::Open { told, cause })))
            }
        }
    }

    fn children_of<K: SymMemory>(
        &self,
        way: Way,
        state: &State<H, K>,
        offsprings: Vec<Offspring<H>>,
    ) -> Result<Vec<Child<H, K>>, AllocError>
        ensures { IfOk result (λ children. map child_seen children.items ≡ spec.children_of (taking (context_of self.now.scope) way) (state_seen state.now) (vec_len offsprings) 0 (map offspring_seen offsprings.items)) }
    {
        let count = offsprings.len();
        let mut children = Vec::new(self.terms.alloc());
        'offsprings: for offspring in offsprings {
            let shares = share_of(state.shares, count as u64, children.len() as u64);
            children.push(self.child_of(way, state, shares, offspring)?)?;
        }
        Ok(children)
    }

    // The children of a state, if each has a share.
    fn forks<K: SymMemory>(
        &self,
        way: Way,
        state: State<H, K>,
        offsprings: Vec<Offspring<H>>,
    ) -> Result<Step<H, K>, AllocError>
        requires { StateFits (state_seen state) }
        ensures { IfOk result (λ step. step_seen step ≡ spec.forks (taking (context_of self.now.scope) way) (state_seen state) (map offspring_seen offsprings.items)) }
    {
        if state.shares < offsprings.len() as u64 {
            opens(self.terms.alloc(), Cause::Shares, state)
        } else {
            Ok(Step::Forks(self.children_of(way, &state, offsprings)?))
        }
    }

    // The first side that the condition holds.
    fn held_side(
        &self,
        condition: &Conditions<H>,
        sides: &[Term<H>],
    ) -> Result<Option<usize>, AllocError>
        requires { HaveOneBit sides.now }
        ensures { IfOk result (λ side. side ≡ spec.held_side condition.now 0 sides.now) }
    {
        let mut side = 0;
        'sides: for conjunct in sides {
            if let Added::Held = condition.answer(self.terms, conjunct)? {
                return Ok(Some(side));
            }
            side += 1;
        }
        Ok(None)
    }

    // A side whose conjunct was appended: where the kept input meets it, no verdict is asked for.
    fn candidate(
        &self,
        kept: &Sequence<u8>,
        conjunct: &Term<H>,
        side: usize,
        condition: Conditions<H>,
    ) -> Result<Option<Offspring<H>>, AllocError>
        requires inputs { length kept.now ≤ 64 }
        requires budget { 1 ≤ self.now.scope.budget }
        requires truth { IsTermOf (length kept.now) 1 conjunct.now }
        requires truths { AreTermsOf (length kept.now) 1 condition }
        ensures { IfOk result (λ o. maybe_seen o ≡ spec.candidate (context_of self.now.scope) kept.now conjunct.now side condition) }
    {
        let alloc = self.terms.alloc();
        if value_once(alloc, conjunct, kept.as_slice())?.bits() == 1 {
            let kept = kept.copy(alloc)?;
            return Ok(Some(Offspring::Lives {
                side,
                condition,
                kept,
            }));
        }
        let inputs = kept.len() as u8;
        let verdict = self
            .decide
            .decide(alloc, condition.as_slice(), inputs, self.scope.budget)?;
        Ok(by_verdict(verdict, side, condition))
    }

    fn offspring<K: SymMemory>(
        &self,
        state: &State<H, K>,
        conjunct: &Term<H>,
        side: usize,
    ) -> Result<Option<Offspring<H>>, AllocError>
        requires budget { 1 ≤ self.now.scope.budget }
        requires fits { StateFits (state_seen state.now) }
        requires truth { IsTermOf (length state.now.kept) 1 conjunct.now }
        ensures { IfOk result (λ o. maybe_seen o ≡ spec.offspring_of (context_of self.now.scope) (answer state.now.condition conjunct.now) (state_seen state.now) conjunct.now side) }
    {
        let mut condition = state.condition.fork()?;
        match condition.add(self.terms, conjunct)? {
            Added::Appended => self.candidate(&state.kept, conjunct, side, condition),
            Added::Held => {
                let kept = state.kept.copy(self.terms.alloc())?;
                Ok(Some(Offspring::Lives {
                    side,
                    condition,
                    kept,
                }))
            }
            Added::Contradicted => Ok(None),
        }
    }

    fn offsprings<K: SymMemory>(
        &self,
        state: &State<H, K>,
        sides: &[Term<H>],
    ) -> Result<Vec<Offspring<H>>, AllocError>
        requires budget { 1 ≤ self.now.scope.budget }
        requires fits { StateFits (state_seen state.now) }
        requires truths { AreTermsOf (length state.now.kept) 1 sides.now }
        ensures { IfOk result (λ os. map offspring_seen os.items ≡ spec.offsprings (context_of self.now.scope) (state_seen state.now) 0 sides.now) }
    {
        let mut offsprings = Vec::new(self.terms.alloc());
        let mut side = 0;
        'sides: for conjunct in sides {
            add(&mut offsprings, self.offspring(state, conjunct, side)?)?;
            side += 1;
        }
        Ok(offsprings)
    }

    // What a state takes of its sides.
    fn offer<K: SymMemory>(
        &self,
        state: State<H, K>,
        sides: &[Term<H>],
    ) -> Result<Offer<H, K>, AllocError>
        requires budget { 1 ≤ self.now.scope.budget }
        requires fits { StateFits (state_seen state) }
        requires truths { AreTermsOf (length state.kept) 1 sides.now }
        ensures { IfOk result (λ o. IsOffer o (state_seen state) (spec.offer (context_of self.now.scope) sides.now (state_seen state))) }
    {
        match self.held_side(&state.condition, sides)? {
            Some(side) => Ok(Offer::Alone(side, state)),
            None => {
                let offsprings = self.offsprings(&state, sides)?;
                alone(self.terms.alloc(), state, offsprings)
            }
        }
    }

    /// A test of a term of one bit over the bytes of the kept input, whose good side is first.
    ///
    /// # Errors
    ///
    /// No memory.
    pub fn test<K: SymMemory>(
        &self,
        holds: &Term<H>,
        state: State<H, K>,
    ) -> Result<Tested<H, K>, AllocError>
        requires budget { 1 ≤ self.now.scope.budget }
        requires fits { StateFits (state_seen state) }
        requires truth { IsTermOf (length state.kept) 1 holds.now }
        ensures { IfOk result (λ t. tested_seen t ≡ spec.test (context_of self.now.scope) holds.now (state_seen state)) }
    {
        let sides = sides_of(self.terms, holds)?;
        match self.offer(state, sides.as_slice())? {
            Offer::Alone(0, state) => Ok(Tested::Good(state)),
            Offer::Alone(_, state) => Ok(Tested::Bad(state)),
            Offer::Several(state, offsprings) => {
                Ok(Tested::Answered(self.forks(Way::Stays, state, offsprings)?))
            }
        }
    }

    /// Takes a side of a branch or a switch: the sides are terms of one bit over the bytes of the kept input.
    ///
    /// # Errors
    ///
    /// No memory.
    pub fn choose_way<K: SymMemory>(
        &self,
        sides: &[Term<H>],
        state: State<H, K>,
    ) -> Result<Step<H, K>, AllocError>
        requires budget { 1 ≤ self.now.scope.budget }
        requires fits { StateFits (state_seen state) }
        requires truths { AreTermsOf (length state.kept) 1 sides.now }
        ensures { IfOk result (λ step. step_seen step ≡ spec.choose_way (context_of self.now.scope) sides.now (state_seen state) (took (context_of self.now.scope))) }
    {
        match self.offer(state, sides)? {
            Offer::Alone(side, state) => Ok(Step::Goes(self.took(side, state)?)),
            Offer::Several(state, offsprings) => self.forks(Way::Takes, state, offsprings),
        }
    }
}

fn sides_of<H: Home>(terms: &Terms<H>, holds: &Term<H>) -> Result<Vec<Term<H>>, AllocError>
    requires { width_of holds.now ≡ 1 }
    ensures { IfOk result (λ sides. sides.items ≡ holds.now ∷ negation holds.now ∷ []) }
{
    let mut sides = Vec::new(terms.alloc());
    sides.push(holds.copy()?)?;
    sides.push(not(terms, holds)?)?;
    Ok(sides)
}
