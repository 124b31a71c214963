//! Where frames stand and go on.
ghost use Rattle.std.specs.Prelude.{◌≡◌, ◌∷◌, ◌++◌, [], map, slice_get, unwrap_or, IfOk, OnOk};
ghost use Rattle.std.specs.Option.{option_copied};
ghost use Rattle.flat_ir.specs.Whole.{successors_of};
ghost use Rattle.sym_states.specs.Attempts as attempts;
ghost use Rattle.sym_states.specs.States as states;
ghost use Rattle.state_sides.specs.Views.{context_of, state_seen};

use crate::program::node_in;
use crate::states::{Machine, State};
use decider::Decide;
use flat_ir::{FuncId, Kept, Next, Node, NodeId, RegId, Residual, SwitchCase};
use leaves::Event;
use places::Home;
use std::alloc::AllocError;
use sym_bytes::SymValue;
use sym_states::{Frame, Place};
use write_log::Index;

fn only(k: usize, next: NodeId) -> Option<NodeId>
    ensures { result ≡ slice_get (next ∷ []) k }
{
    if k == 0 { Some(next) } else { None }
}

fn one_of_two(k: usize, first: NodeId, second: NodeId) -> Option<NodeId>
    ensures { result ≡ slice_get (first ∷ second ∷ []) k }
{
    match k {
        0 => Some(first),
        1 => Some(second),
        _ => None,
    }
}

fn case_or_default(k: usize, cases: &[SwitchCase], default: NodeId) -> Option<NodeId>
    ensures { result ≡ slice_get (map (λ c. c.to) cases.now ++ default ∷ []) k }
{
    match cases.get(k) {
        Some(case) => Some(case.to),
        None => {
            if k == cases.len() {
                Some(default)
            } else {
                None
            }
        }
    }
}

/// Successor k of a node, counted from 0.
pub fn successor(node: &Node, k: usize) -> Option<NodeId>
    ensures { result ≡ slice_get (successors_of node.now) k }
{
    match node {
        Node::Bin { next, .. }
        | Node::Cmp { next, .. }
        | Node::Cast { next, .. }
        | Node::Gep { next, .. }
        | Node::Select { next, .. }
        | Node::Alloca { next, .. }
        | Node::Malloc { next, .. }
        | Node::Free { next, .. }
        | Node::Load { next, .. }
        | Node::Store { next, .. }
        | Node::Copy { next, .. }
        | Node::In { next, .. }
        | Node::Put { next, .. }
        | Node::Call { next, .. }
        | Node::Moves { next, .. }
        | Node::Jump { next } => only(k, *next),
        Node::Branch { yes, no, .. } => one_of_two(k, *yes, *no),
        Node::Switch { cases, default, .. } => case_or_default(k, cases.as_slice(), *default),
        Node::Ret { .. }
        | Node::Exit { .. }
        | Node::Abort
        | Node::Assert { .. }
        | Node::Unreachable => None,
    }
}

fn place_in(at: NodeId, next: Next) -> Place
    ensures { result ≡ states.place_in at next }
{
    match next {
        Next::Node(node) => Place::At(node),
        Next::End => Place::End,
        Next::Never => Place::Never(at),
    }
}

// Successor k of a node of a retained function.
fn next_of(kept: &Kept, node: NodeId, k: usize) -> Next
    ensures { result ≡ unwrap_or (slice_get (states.nexts_at (slice_get kept.now.nexts node.0)) k) Next.Never }
{
    match kept.nexts.get(node.0 as usize) {
        Some(Some(nexts)) => match nexts.get(k) {
            Some(next) => *next,
            None => Next::Never,
        },
        _ => Next::Never,
    }
}

fn next_in(residual: &Residual, func: FuncId, node: NodeId, k: usize) -> Next
    ensures { result ≡ states.next_in residual.now func node k }
{
    match residual.funcs.get(func.0 as usize) {
        Some(kept) => next_of(kept, node, k),
        None => Next::Never,
    }
}

fn start_in(residual: &Residual, func: FuncId) -> Next
    ensures { result ≡ states.start_in (slice_get residual.now.funcs func.0) }
{
    match residual.funcs.get(func.0 as usize) {
        Some(kept) => kept.start,
        None => Next::Never,
    }
}

impl<'a, H: Home, D: Decide> Machine<'a, H, D> {
    fn successor_of(&self, k: usize, frame: &Frame<H>) -> NodeId
        ensures { result ≡ unwrap_or (slice_get (successors_of (states.code_of self.now.scope.program.now frame.now)) k) states.first_node }
    {
        match node_in(self.scope.program, frame.func(), frame.place().node()) {
            Some(node) => match successor(node, k) {
                Some(next) => next,
                None => NodeId(0),
            },
            None => NodeId(0),
        }
    }

    // Where successor k of the frame's node leads.
    fn place_after(&self, k: usize, frame: &Frame<H>) -> Place
        ensures { result ≡ states.place_after self.now.scope.program.now self.now.scope.residual.now k frame.now }
    {
        match self.scope.residual {
            None => Place::At(self.successor_of(k, frame)),
            Some(residual) => {
                let node = frame.place().node();
                place_in(node, next_in(residual, frame.func(), node, k))
            }
        }
    }

    /// Moves a frame to successor k of its node.
    pub fn moved(&self, k: usize, frame: &mut Frame<H>)
        ensures { frame.new ≡ states.moved (context_of self.now.scope) k frame.old }
    {
        let place = self.place_after(k, frame);
        frame.at(place);
    }

    /// Where a function begins.
    pub fn place_first(&self, func: FuncId) -> Place
        ensures { result ≡ states.place_first self.now.scope.residual.now func }
    {
        match self.scope.residual {
            None => Place::At(NodeId(0)),
            Some(residual) => place_in(NodeId(0), start_in(residual, func)),
        }
    }

    // Counts the frame's node, sets its register, and goes to its first successor.
    fn passes(
        &self,
        register: Option<RegId>,
        value: Option<SymValue<H>>,
        frame: &mut Frame<H>,
    ) -> Result<(), AllocError>
        ensures { OnOk result (frame.new ≡ states.moved (context_of self.now.scope) 0 (states.set_if register value (states.counted frame.old))) }
    {
        match frame.counted() {
            Ok(()) => {
                frame.set_if(register, value);
                self.moved(0, frame);
                Ok(())
            }
            Err(error) => {
                drop(value);
                Err(error)
            }
        }
    }

    /// The state with its node done: it is counted, sets its register, and the frame stands at its first successor.
    ///
    /// # Errors
    ///
    /// No memory, or a count past its bound.
    pub fn done<K: Index>(
        &self,
        register: Option<RegId>,
        value: Option<SymValue<H>>,
        mut state: State<H, K>,
    ) -> Result<State<H, K>, AllocError>
        ensures { IfOk result (λ s. states.Goes (state_seen s) ≡ states.gives (context_of self.now.scope) register value (state_seen state)) }
    {
        match self.passes(register, value, &mut state.frame) {
            Ok(()) => Ok(state),
            Err(error) => {
                drop(state);
                Err(error)
            }
        }
    }

    // Shows a side of the state's node, and takes it.
    fn shows_side<K: Index>(&self, side: usize, state: &mut State<H, K>) -> Result<(), AllocError>
        ensures { OnOk result (state_seen state.new ≡ attempts.took (context_of self.now.scope) side (state_seen state.old)) }
    {
        let event = Event::branch(state.frame.func(), state.frame.place().node(), side);
        state.path = state.path.with(self.terms.alloc(), event)?;
        state.frame.counted()?;
        self.moved(side, &mut state.frame);
        Ok(())
    }

    /// The state with a side of its node taken and shown.
    ///
    /// # Errors
    ///
    /// No memory, or a count past its bound.
    pub fn took<K: Index>(
        &self,
        side: usize,
        mut state: State<H, K>,
    ) -> Result<State<H, K>, AllocError>
        ensures { IfOk result (λ s. state_seen s ≡ attempts.took (context_of self.now.scope) side (state_seen state)) }
    {
        match self.shows_side(side, &mut state) {
            Ok(()) => Ok(state),
            Err(error) => {
                drop(state);
                Err(error)
            }
        }
    }
}
