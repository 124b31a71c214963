ghost use Rattle.std.specs.Prelude.{◌≡◌, List, IfOk};
ghost use Rattle.await_core.specs.Meaning.{Meaning, AreNodes, joined};
ghost use Rattle.await_core.specs.Evaluation.{Evaluates, ComesTo, EachComesTo, IsWorth, IsOwn};

use crate::expansion::Expansion;
use crate::tree::Tree;
use plain_list::Sequence;
use std::alloc::{AllocError, Global};

/// The leaves of an evaluation, and the number of its tasks, or 2^64 - 1 where that is greater.
#[derive(Drop)]
pub struct Evaluation<L> {
    pub leaves: Sequence<L>,
    pub tasks: u64,
}

/// The lists of leaves of several nodes, and the number of their tasks.
#[derive(Drop)]
pub struct Evaluations<L> {
    pub lists: Sequence<Sequence<L>>,
    pub tasks: u64,
}

/// The lists, one after another.
#[tactic(auto, using(crate::proofs::Joined::joined_last))]
pub fn join_lists<L: Drop>(
    alloc: Global,
    lists: Sequence<Sequence<L>>,
) -> Result<Sequence<L>, AllocError>
    ensures { IfOk result (λ all. all ≡ joined lists) }
{
    let mut all = Sequence::new(alloc);
    for list in lists.into_vec() {
        all.append(list)?;
    }
    Ok(all)
}

/// Evaluates an answer.
#[cycle(evaluation)]
pub fn evaluate_answer<T: Tree>(
    alloc: Global,
    tree: &T,
    answer: Expansion<T::Node, T::Leaf, T::Rest>,
) -> Result<Evaluation<T::Leaf>, AllocError>
    requires { IsOwn (T.meaning tree.now) answer }
    ensures { IfOk result (λ all. ComesTo (T.meaning tree.now).answers answer all.leaves all.tasks) }
{
    match answer {
        Expansion::Leaf(leaf) => {
            let leaves = Sequence::of_one(alloc, leaf)?;
            Ok(Evaluation { leaves, tasks: 0 })
        }
        Expansion::Fork(nodes) => {
            let each = evaluate_each(alloc, tree, nodes.as_slice())?;
            let leaves = join_lists(alloc, each.lists)?;
            Ok(Evaluation {
                leaves,
                tasks: each.tasks,
            })
        }
        Expansion::Await(nodes, rest) => {
            let each = evaluate_each(alloc, tree, nodes.as_slice())?;
            let next = tree.resume(alloc, &rest, each.lists.as_slice())?;
            let after = evaluate_answer(alloc, tree, next)?;
            let resumed = after.tasks.saturating_add(1);
            Ok(Evaluation {
                leaves: after.leaves,
                tasks: each.tasks.saturating_add(resumed),
            })
        }
    }
}

/// Evaluates the nodes, in order.
#[cycle(evaluation)]
pub fn evaluate_each<T: Tree>(
    alloc: Global,
    tree: &T,
    nodes: &[T::Node],
) -> Result<Evaluations<T::Leaf>, AllocError>
    requires { AreNodes (T.meaning tree.now) nodes.now }
    ensures { IfOk result (λ all. EachComesTo (T.meaning tree.now).answers nodes.now all.lists all.tasks) }
{
    let mut lists = Sequence::new(alloc);
    let mut tasks: u64 = 0;
    for node in nodes {
        let answer = tree.expand(alloc, node)?;
        let one = evaluate_answer(alloc, tree, answer)?;
        lists.push(one.leaves)?;
        let expanded = one.tasks.saturating_add(1);
        tasks = tasks.saturating_add(expanded);
    }
    Ok(Evaluations { lists, tasks })
}

/// The leaves of the root.
pub fn eval_one<T: Tree>(
    alloc: Global,
    tree: &T,
    root: &T::Node,
) -> Result<Vec<T::Leaf>, AllocError>
    requires { (T.meaning tree.now).IsNode root.now }
    ensures worth { IfOk result (λ leaves. IsWorth (T.meaning tree.now).answers root.now leaves.items) }
    ensures exists { (leaves : List T.Leaf) × IsWorth (T.meaning tree.now).answers root.now leaves }
    ensures unique { (one other : List T.Leaf) → IsWorth (T.meaning tree.now).answers root.now one → IsWorth (T.meaning tree.now).answers root.now other → one ≡ other }
{
    let answer = tree.expand(alloc, root)?;
    let all = evaluate_answer(alloc, tree, answer)?;
    Ok(all.leaves.into_vec())
}
