ghost use Rattle.std.specs.Prelude.{◌≡◌, ℕ, IfOk};
ghost use Rattle.await_core.specs.Evaluation.{Counts};
ghost use Rattle.await_core.specs.Standing.{IsWorthIn, Stands, StandsFor};

use crate::board::{Board, Taken, finish};
use crate::perform::perform;
use crate::tree::Tree;
use std::alloc::{AllocError, Global};

/// Does the open task with the least ticket, if there is one.
pub fn turn<T: Tree>(
    alloc: Global,
    board: &mut Board<T::Node, T::Leaf, T::Rest>,
    tree: &T,
) -> Result<(), AllocError>
    requires { StandsFor (T.meaning tree.now) board.old }
    ensures { (root : T.Node) → Stands (T.meaning tree.now).answers root board.old → Stands (T.meaning tree.now).answers root board.new }
{
    if let Taken::Task { ticket, work } = board.take() {
        let made = perform(alloc, tree, work.get())?;
        let _ = board.post(alloc, ticket, made)?;
    }
    Ok(())
}

/// The leaves of the root and the number of its tasks, by so many turns on a board, and then what is left.
pub fn run_alone<T: Tree>(
    alloc: Global,
    tree: &T,
    root: T::Node,
    turns: u64,
) -> Result<(Vec<T::Leaf>, u64), AllocError>
    requires { (T.meaning tree.now).IsNode root }
    ensures { IfOk result (λ done. (tasks : ℕ) × Counts (T.meaning tree.now).answers done.1 tasks × IsWorthIn (T.meaning tree.now).answers root done.0.items tasks) }
{
    let mut board = Board::start(alloc, root)?;
    for _turn in 0..turns {
        turn(alloc, &mut board, tree)?;
    }
    finish(alloc, board, tree)
}
