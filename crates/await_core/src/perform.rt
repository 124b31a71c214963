ghost use Rattle.std.specs.Prelude.{◌≡◌, IfOk};
ghost use Rattle.await_core.specs.Standing.{answer_for, IsOwnWork};

use crate::expansion::Expansion;
use crate::record::Work;
use crate::tree::Tree;
use std::alloc::{AllocError, Global};

/// The tree's answer for a work.
pub fn perform<T: Tree>(
    alloc: Global,
    tree: &T,
    work: &Work<T::Node, T::Leaf, T::Rest>,
) -> Result<Expansion<T::Node, T::Leaf, T::Rest>, AllocError>
    requires { IsOwnWork (T.meaning tree.now) work.now }
    ensures { IfOk result (λ made. answer_for (T.meaning tree.now).answers work.now ≡ made) }
{
    match work {
        Work::Expand(node) => tree.expand(alloc, node),
        Work::Resume(rest, lists) => tree.resume(alloc, rest, lists.as_slice()),
    }
}
