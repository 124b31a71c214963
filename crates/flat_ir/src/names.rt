//! Names of functions, nodes, registers, sites, frames and objects.
ghost use Rattle.std.specs.Prelude.{◌≡◌, ◌∷◌, [], ◌↔◌, IsTrue, IfOk, MatchOption};
ghost use Rattle.flat_ir.specs.Digest as spec;
ghost use Rattle.flat_ir.specs.ObjectDigest.{digest_of_object};

use std::alloc::{AllocError, Global};
use std::hash::{Hash, Hasher};
use std::marker::Model;
use std::sync::Arc;

#[derive(Clone, Copy, Debug, PartialEq, Eq)]
pub struct FuncId(pub u32);

#[derive(Clone, Copy, Debug, PartialEq, Eq)]
pub struct NodeId(pub u32);

#[derive(Clone, Copy, Debug, PartialEq, Eq)]
pub struct RegId(pub u32);

/// Where objects come from.
#[derive(Clone, Copy, Debug, PartialEq, Eq)]
pub enum Site {
    Global(u32),
    Node(FuncId, NodeId),
}

/// What a call may change.
#[derive(Clone, Copy, Debug, PartialEq, Eq)]
pub enum Location {
    Cells(Site),
    Life(Site),
    Input,
    Output,
    Result,
}

/// A node, and how often its frame has executed it, from 1.
#[derive(Clone, Copy, Debug, PartialEq, Eq)]
pub struct CallStep {
    pub func: FuncId,
    pub node: NodeId,
    pub count: u64,
}

/// The calls that made a frame, the newest first. Main's first frame has none.
#[cycle(frame_name)]
#[derive(Drop)]
pub struct FrameName {
    digest: u64,
    calls: Calls,
}

#[cycle(frame_name)]
enum Calls {
    Main,
    Call(CallStep, Arc<FrameName, Global>),
}

// One link at a time, so that the name of a million calls takes no deep stack.
impl Drop for Calls {
    fn drop(mut self) {
        loop {
            match self {
                Calls::Main => return,
                Calls::Call(_, caller) => match Arc::into_inner(caller) {
                    None => return,
                    Some(FrameName { digest: _, calls }) => self = calls,
                },
            }
        }
    }
}

impl Model for FrameName {
    ghost use Rattle.std.specs.Prelude.{◌≡◌, List, length};
    ghost use Rattle.flat_ir.specs.declared.names.CallStep.{CallStep};

    ghost Value = { List CallStep };

    ghost use Rattle.flat_ir.specs.Calls.{calls_of};

    ghost view = { λ f. calls_of f.calls };

    ghost use Rattle.flat_ir.specs.Digest.{digest_of};

    ghost invariant = { λ f. f.digest ≡ digest_of (calls_of f.calls) };

    ghost size = { length };

    ghost use Rattle.std.proofs.Common.{arith};

    ghost size_decreases = { λ a h. Prim.grind arith };
}

fn mixed(a: u64, b: u64) -> u64
    ensures { result ≡ spec.mixed a b }
{
    a.wrapping_mul(1099511628211).wrapping_add(b)
}

fn digest_of_step(step: &CallStep) -> u64
    ensures { result ≡ spec.digest_of_step step.now }
{
    mixed(mixed(step.func.0 as u64, step.node.0 as u64), step.count)
}

impl FrameName {
    /// The name of main's first frame.
    pub fn main() -> FrameName
        ensures { result ≡ [] }
    {
        FrameName {
            digest: 1,
            calls: Calls::Main,
        }
    }

    /// One more owner of the same name: a count, and no copy.
    pub fn copy(&self) -> Result<FrameName, AllocError>
        ensures { IfOk result (λ f. f ≡ self.now) }
    {
        let calls = match &self.calls {
            Calls::Main => Calls::Main,
            Calls::Call(step, caller) => Calls::Call(*step, Arc::try_clone(caller)?),
        };
        Ok(FrameName {
            digest: self.digest,
            calls,
        })
    }

    /// The name of the frame that a call makes.
    pub fn called(&self, alloc: Global, step: CallStep) -> Result<FrameName, AllocError>
        ensures { IfOk result (λ f. f ≡ step ∷ self.now) }
    {
        let digest = mixed(self.digest, digest_of_step(&step));
        let caller = Arc::new(alloc, self.copy()?)?;
        Ok(FrameName {
            digest,
            calls: Calls::Call(step, caller),
        })
    }

    /// The newest call of the name and the frame that made it; main's first frame has none.
    pub fn newest(&self) -> Option<(CallStep, &FrameName)>
        ensures { MatchOption result (self.now ≡ []) (λ newest. self.now ≡ newest.0 ∷ newest.1.now) }
    {
        match &self.calls {
            Calls::Main => None,
            Calls::Call(step, caller) => Some((*step, caller)),
        }
    }

    pub fn digest(&self) -> u64
        ensures { result ≡ spec.digest_of self.now }
    {
        self.digest
    }
}

/// Whether two names are one: link by link, so that no long name takes a deep stack.
pub fn same_frames(a: &FrameName, b: &FrameName) -> bool
    ensures { IsTrue result ↔ (a.now ≡ b.now) }
{
    let mut left = a;
    let mut right = b;
    'links: while left.digest == right.digest {
        match (&left.calls, &right.calls) {
            (Calls::Main, Calls::Main) => return true,
            (Calls::Call(step, caller), Calls::Call(other, of)) if step == other => {
                left = caller;
                right = of;
            }
            _ => return false,
        }
    }
    false
}

/// A global, or what a node of a frame made.
#[derive(Drop)]
pub enum ObjectName {
    Global(u32),
    Made { frame: FrameName, made: CallStep },
}

impl ObjectName {
    /// One more owner of the same name.
    pub fn copy(&self) -> Result<ObjectName, AllocError>
        ensures { IfOk result (λ x. x ≡ self.now) }
    {
        match self {
            ObjectName::Global(global) => Ok(ObjectName::Global(*global)),
            ObjectName::Made { frame, made } => Ok(ObjectName::Made {
                frame: frame.copy()?,
                made: *made,
            }),
        }
    }

    fn digest(&self) -> u64
        ensures { result ≡ digest_of_object self.now }
    {
        match self {
            ObjectName::Global(global) => *global as u64,
            ObjectName::Made { frame, made } => mixed(frame.digest(), digest_of_step(made)),
        }
    }
}

impl PartialEq for ObjectName {
    ghost use Rattle.flat_ir.specs.History.{same_object};
    ghost use Rattle.flat_ir.specs.Same.{same_object_equivalence};
    ghost use Rattle.std.specs.Cmp.{partial_equiv_from_equiv};

    ghost eq = { same_object };

    ghost laws = { partial_equiv_from_equiv same_object_equivalence };

    fn eq(&self, other: &ObjectName) -> bool {
        same_objects(self, other)
    }
}

impl Eq for ObjectName {
    ghost use Rattle.flat_ir.specs.Same.{same_object_equivalence};

    ghost laws = { same_object_equivalence };
}

impl Hash for ObjectName {
    ghost use Rattle.std.specs.Hash as fed;
    ghost use Rattle.flat_ir.specs.ObjectDigest.{digest_of_object};
    ghost use Rattle.flat_ir.specs.Same.{same_object_digests};

    ghost hash_input = { λ x. fed.u64 (digest_of_object x) };

    ghost respects_eq = { same_object_digests };

    fn hash<H: Hasher>(&self, state: &mut H) {
        state.write_u64(self.digest());
    }
}

/// Whether two names are one.
pub fn same_objects(a: &ObjectName, b: &ObjectName) -> bool
    ensures { IsTrue result ↔ (a.now ≡ b.now) }
{
    match (a, b) {
        (ObjectName::Global(g), ObjectName::Global(h)) => *g == *h,
        (
            ObjectName::Made { frame, made },
            ObjectName::Made {
                frame: of,
                made: other,
            },
        ) => *made == *other && same_frames(frame, of),
        _ => false,
    }
}
