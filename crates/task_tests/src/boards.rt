//! A small tree on a board and by recursion: its leaves, how many tasks they took, and what the tree was asked.
use crate::trees::Stairs;
use await_core::alone::run_alone;
use await_core::board::{Board, Posted, Taken};
use await_core::evaluation::eval_one;
use await_core::expansion::Expansion;
use await_core::tree::Tree;
use std::sync::atomic::{AtomicU64, Ordering};
use std::test::Fail;

#[test]
fn a_fork_of_two_leaves(rt: HostRuntime) -> Result<(), Fail> {
    let tree = Stairs {
        asked: AtomicU64::new(0),
    };
    let mut board: Board<u8, u8, u8> = Board::start(rt.alloc(), 0)?;
    assert!(rt; matches!(board.take(), Taken::Task { ticket: 0, .. }));
    assert!(rt; matches!(board.take(), Taken::Idle { taken: 1 }));
    assert_eq!(rt;
        board.post(rt.alloc(), 7, Expansion::Leaf(9))?,
        Posted::Stray
    );
    let answer = tree.expand(rt.alloc(), &0)?;
    assert_eq!(rt; board.post(rt.alloc(), 0, answer)?, Posted::Kept);
    assert!(rt; matches!(board.take(), Taken::Task { ticket: 1, .. }));
    assert!(rt; matches!(board.take(), Taken::Task { ticket: 2, .. }));
    let tree = Stairs {
        asked: AtomicU64::new(0),
    };
    let (leaves, count) = run_alone(rt.alloc(), &tree, 0, 1)?;
    assert_eq!(rt; leaves.as_slice(), [1, 2].as_slice());
    assert_eq!(rt; count, 3);
    assert_eq!(rt; tree.asked.load(Ordering::SeqCst), 3);
    Ok(())
}

#[test]
fn an_await_whose_resumption_forks(rt: HostRuntime) -> Result<(), Fail> {
    let tree = Stairs {
        asked: AtomicU64::new(0),
    };
    let leaves = eval_one(rt.alloc(), &tree, &3)?;
    assert_eq!(rt; leaves.as_slice(), [4, 5].as_slice());
    assert_eq!(rt; tree.asked.load(Ordering::SeqCst), 6);
    for turns in 0u64..8 {
        let tree = Stairs {
            asked: AtomicU64::new(0),
        };
        let (leaves, count) = run_alone(rt.alloc(), &tree, 3, turns)?;
        assert_eq!(rt; leaves.as_slice(), [4, 5].as_slice());
        assert_eq!(rt; count, 6);
        assert_eq!(rt; tree.asked.load(Ordering::SeqCst), 6);
    }
    Ok(())
}
