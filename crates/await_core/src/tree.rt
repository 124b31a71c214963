ghost use Rattle.std.specs.Prelude.{◌≡◌, IfOk};
ghost use Rattle.await_core.specs.Meaning.{Meaning, IsLawful};

use crate::expansion::Expansion;
use plain_list::Sequence;
use std::alloc::{AllocError, Global};

/// A tree of tasks: a node is expanded, and a rest is resumed with the lists of what it awaited.
pub trait Tree: Send + Sync + Drop {
    type Node: Send + Sync + Drop;

    type Leaf: Send + Sync + Drop;

    type Rest: Send + Sync + Drop;

    /// What contracts see of the tree.
    ghost meaning: { Self → Meaning Self.Node Self.Leaf Self.Rest };

    fn expand(
        &self,
        alloc: Global,
        node: &Self::Node,
    ) -> Result<Expansion<Self::Node, Self::Leaf, Self::Rest>, AllocError>
        requires { (meaning self.now).IsNode node.now }
        ensures { IfOk result (λ answer. answer ≡ (meaning self.now).answers.expansion node.now) };

    fn resume(
        &self,
        alloc: Global,
        rest: &Self::Rest,
        results: &[Sequence<Self::Leaf>],
    ) -> Result<Expansion<Self::Node, Self::Leaf, Self::Rest>, AllocError>
        requires own { (meaning self.now).IsRest rest.now }
        requires takes { (meaning self.now).Takes rest.now results.now }
        ensures { IfOk result (λ answer. answer ≡ (meaning self.now).answers.resumption rest.now results.now) };

    /// The answers keep the laws.
    ghost laws: { (tree : Self) → IsLawful (meaning tree) };
}
