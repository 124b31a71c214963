//! The exploration of a program.
ghost use Rattle.std.specs.Prelude.{◌≡◌, ◌≤◌, [], ◌∷◌, ◌++◌, List, map, IfOk, OnOk, MatchOption};
ghost use Rattle.checks.specs.Errors.{IsChecked};
ghost use Rattle.leaves.specs.Events as events;
ghost use Rattle.sym_states.specs.Exploring.{zeros, first_state};
ghost use Rattle.sym_states.specs.Fitting.{GlobalsFit};
ghost use Rattle.sym_states.specs.States as states;
ghost use Rattle.state_laws.specs.Skipless.{ChildHasNoCalls};
ghost use Rattle.state_sides.specs.Views.{state_seen, child_seen};
ghost use Rattle.sym_machine.specs.Explored.{setting_of, AreLeaves, LeavesFitAt, LeavesHaveNoCalls};
ghost use Rattle.sym_machine.specs.Turns.{waiting_seen, IsSetUp, IsReady, AreReady, Turned};

use crate::advancing::advance;
use crate::fitting::program_fits;
use call_steps::entered;
use decider::{Decide, decisions_are_right};
use flat_ir::{FrameName, Program};
use leaves::{Leaf, Options};
use places::Home;
use plain_list::Sequence;
use state_sides::{Child, Machine, Path, Scope, State, Step};
use std::alloc::{AllocError, Global};
use sym_states::Callers;
use term_store::Conditions;
use terms::Terms;
use write_log::SymMemory;

/// What an exploration took, for measurements.
#[derive(Clone, Copy, Debug, PartialEq, Eq)]
pub struct Counts {
    /// Turns: each is an attempt, or takes a leaf that a fork told, and the last finds nothing left.
    pub attempts: u64,
    /// The most states that waited at once.
    pub waiting: usize,
}

impl Counts {
    /// Before anything was done.
    pub fn new() -> Counts
        ensures { result ≡ record { attempts = 0; waiting = 0 } }
    {
        Counts {
            attempts: 0,
            waiting: 0,
        }
    }

    // One turn more, before which these waited.
    fn add_turn<C>(&mut self, waiting: &[C]) {
        self.attempts = self.attempts.saturating_add(1);
        if waiting.len() > self.waiting {
            self.waiting = waiting.len();
        }
    }
}

// What explores: the machine, and the limits.
#[derive(Drop)]
struct Exploration<'a, H: Home, D: Decide> {
    machine: Machine<'a, H, D>,
    options: Options,
}

fn zeros(alloc: Global, count: u8) -> Result<Sequence<u8>, AllocError>
    ensures { IfOk result (λ bytes. bytes ≡ zeros count) }
{
    let mut bytes = Sequence::new(alloc);
    'bytes: for _ in 0..count {
        bytes.push(0)?;
    }
    Ok(bytes)
}

// The children stand in front of those that wait.
fn put_back<H: Home, K: SymMemory>(
    waiting: &mut Vec<Child<H, K>>,
    mut children: Vec<Child<H, K>>,
) -> Result<(), AllocError>
    ensures { OnOk result (waiting_seen waiting.new.items ≡ map child_seen children.items ++ waiting_seen waiting.old.items) }
{
    'put: while let Some(child) = children.pop() {
        waiting.push(child)?;
    }
    Ok(())
}

fn wait<H: Home, K: SymMemory>(
    waiting: &mut Vec<Child<H, K>>,
    state: State<H, K>,
) -> Result<(), AllocError>
    ensures { OnOk result (waiting_seen waiting.new.items ≡ states.Go (state_seen state) ∷ waiting_seen waiting.old.items) }
{
    waiting.push(Child::Go(state))?;
    Ok(())
}

fn keep<H: Home>(leaves: &mut Vec<Leaf<H>>, leaf: Leaf<H>) -> Result<(), AllocError>
    ensures { OnOk result (leaves.new.items ≡ leaves.old.items ++ leaf ∷ []) }
{
    leaves.push(leaf)?;
    Ok(())
}

fn next<H: Home, K: SymMemory>(waiting: &mut Vec<Child<H, K>>) -> Option<Child<H, K>>
    ensures { MatchOption result (waiting_seen waiting.old.items ≡ []) (λ child. waiting_seen waiting.old.items ≡ child_seen child ∷ waiting_seen waiting.new.items) }
{
    waiting.pop()
}

impl<'a, H: Home, D: Decide> Exploration<'a, H, D> {
    // Main at its first node, with nothing done.
    fn first<K: SymMemory>(&self) -> Result<State<H, K>, AllocError>
        requires { IsSetUp self.now.machine.scope self.now.options }
        ensures { IfOk result (λ s. state_seen s ≡ first_state (setting_of self.now.machine.scope.program.now self.now.options)) }
    {
        let alloc = self.machine.terms.alloc();
        let program = self.machine.scope.program;
        let args = Sequence::new(alloc);
        Ok(State {
            frame: entered(&self.machine, program.main, args, FrameName::main())?,
            callers: Callers::new(alloc)?,
            memory: K::start(alloc, program.globals.as_slice())?,
            snapshots: Sequence::new(alloc),
            condition: Conditions::new(alloc),
            kept: zeros(alloc, self.options.input)?,
            path: Path::new(alloc)?,
            left: self.options.steps,
            shares: self.options.shares,
            target: None,
        })
    }

    // One attempt of the state in front.
    fn turn<K: SymMemory>(
        &self,
        state: State<H, K>,
        waiting: &mut Vec<Child<H, K>>,
        leaves: &mut Vec<Leaf<H>>,
    ) -> Result<(), AllocError>
        requires set_up { IsSetUp self.now.machine.scope self.now.options }
        requires ready { IsReady self.now.options.input (states.Go (state_seen state)) }
        requires others { AreReady self.now.options.input (waiting_seen waiting.old.items) }
        ensures { OnOk result ((fresh : List events.Leaf) × (leaves.new.items ≡ leaves.old.items ++ fresh) × Turned (setting_of self.now.machine.scope.program.now self.now.options) (states.Go (state_seen state) ∷ waiting_seen waiting.old.items) (waiting_seen waiting.new.items) fresh) }
    {
        let step = advance(&self.machine, state)?;
        match step {
            Step::Goes(next) => wait(waiting, next),
            Step::Ends(leaf) => keep(leaves, leaf),
            Step::Forks(children) => put_back(waiting, children),
            Step::Needs(_, _) => unreachable!(),
        }
    }

    // What the child in front comes to.
    fn task<K: SymMemory>(
        &self,
        child: Child<H, K>,
        waiting: &mut Vec<Child<H, K>>,
        leaves: &mut Vec<Leaf<H>>,
    ) -> Result<(), AllocError>
        requires set_up { IsSetUp self.now.machine.scope self.now.options }
        requires ready { IsReady self.now.options.input (child_seen child) }
        requires others { AreReady self.now.options.input (waiting_seen waiting.old.items) }
        ensures { OnOk result ((fresh : List events.Leaf) × (leaves.new.items ≡ leaves.old.items ++ fresh) × Turned (setting_of self.now.machine.scope.program.now self.now.options) (child_seen child ∷ waiting_seen waiting.old.items) (waiting_seen waiting.new.items) fresh) }
    {
        match child {
            Child::Go(state) => self.turn(state, waiting, leaves),
            Child::Stop(leaf) => keep(leaves, leaf),
        }
    }

    // The leaves, in the order of the tree.
    fn leaves<K: SymMemory>(&self, counts: &mut Counts) -> Result<Vec<Leaf<H>>, AllocError>
        requires set_up { IsSetUp self.now.machine.scope self.now.options }
        requires globals { GlobalsFit self.now.machine.scope.program.now.globals }
        ensures leaves { IfOk result (λ leaves. AreLeaves self.now.machine.scope.program.now self.now.options leaves.items) }
        ensures fits { IfOk result (λ leaves. LeavesFitAt self.now.options.input leaves.items) }
        ensures no_calls { IfOk result (λ leaves. LeavesHaveNoCalls leaves.items) }
    {
        let alloc = self.machine.terms.alloc();
        let mut leaves = Vec::new(alloc);
        let mut waiting: Vec<Child<H, K>> = Vec::new(alloc);
        wait(&mut waiting, self.first()?)?;
        'tasks: for _ in 0..u64::MAX {
            counts.add_turn(waiting.as_slice());
            match next(&mut waiting) {
                None => return Ok(leaves),
                Some(child) => self.task(child, &mut waiting, &mut leaves)?,
            }
        }
        Err(AllocError)
    }
}

/// The leaves of a program, in the order of its tree: the children of a fork in the order of their sides. No call is skipped.
///
/// # Errors
///
/// No memory, or a count past its bound.
pub fn explore<'a, H: Home, K: SymMemory, D: Decide>(
    program: &'a Program,
    terms: &'a Terms<H>,
    decide: &'a D,
    options: Options,
) -> Result<Vec<Leaf<H>>, AllocError>
    requires inputs { options.input ≤ 64 }
    requires budget { 1 ≤ options.leaves }
    requires checked { IsChecked program.now.funcs }
    ensures leaves { IfOk result (λ leaves. AreLeaves program.now options leaves.items) }
    ensures fits { IfOk result (λ leaves. LeavesFitAt options.input leaves.items) }
    ensures no_calls { IfOk result (λ leaves. LeavesHaveNoCalls leaves.items) }
{
    let mut counts = Counts::new();
    explore_counted::<H, K, D>(program, terms, decide, options, &mut counts)
}

/// The leaves as `explore` gives them, and what it took to find them, added to the counts. No clause says what is counted.
///
/// # Errors
///
/// No memory, or a count past its bound.
pub fn explore_counted<'a, H: Home, K: SymMemory, D: Decide>(
    program: &'a Program,
    terms: &'a Terms<H>,
    decide: &'a D,
    options: Options,
    counts: &mut Counts,
) -> Result<Vec<Leaf<H>>, AllocError>
    requires inputs { options.input ≤ 64 }
    requires budget { 1 ≤ options.leaves }
    requires checked { IsChecked program.now.funcs }
    ensures leaves { IfOk result (λ leaves. AreLeaves program.now options leaves.items) }
    ensures fits { IfOk result (λ leaves. LeavesFitAt options.input leaves.items) }
    ensures no_calls { IfOk result (λ leaves. LeavesHaveNoCalls leaves.items) }
{
    program_fits(program);
    decisions_are_right();
    let unsliced = None;
    let scope = Scope {
        program: program.parts(),
        skips: &[],
        mods: &[],
        residual: &unsliced,
        budget: options.leaves,
    };
    let machine = Machine {
        scope,
        terms,
        decide,
    };
    let exploration = Exploration { machine, options };
    exploration.leaves::<K>(counts)
}
