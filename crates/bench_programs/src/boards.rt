//! Posts on a board: `board wide|chain COUNT ROUNDS` evaluates a tree on a board so many times. The shape `wide` is a root with COUNT
//! children, and `chain` one of COUNT awaits, each below the one before.
ghost use Rattle.std.specs.Prelude.{◌≢◌, [], IfOk};
ghost use Rattle.await_core.specs.Events.{HasNodes};

use crate::words::{number, refused};
use await_core::board::{Board, Taken};
use await_core::expansion::Expansion;
use await_core::record::Work;
use plain_list::Sequence;
use std::alloc::{AllocError, Global};
use std::io;

/// So many nodes that are leaves, and at least one.
fn children(alloc: Global, count: u64) -> Result<Sequence<u64>, AllocError>
    ensures { IfOk result (λ nodes. nodes ≢ []) }
{
    let mut others = Sequence::new(alloc);
    for _node in 1..count {
        others.push(0)?;
    }
    let mut nodes = Sequence::of_one(alloc, 0)?;
    nodes.append(others)?;
    Ok(nodes)
}

/// Node 0 is a leaf. Each other one forks into as many leaves, or awaits the node before it.
fn answer(
    alloc: Global,
    wide: bool,
    work: &Work<u64, u64, u64>,
) -> Result<Expansion<u64, u64, u64>, AllocError>
    ensures { IfOk result HasNodes }
{
    match work {
        Work::Expand(node) => {
            if *node == 0 {
                return Ok(Expansion::Leaf(0));
            }
            if wide {
                return Ok(Expansion::Fork(children(alloc, *node)?));
            }
            Ok(Expansion::Await(Sequence::of_one(alloc, *node - 1)?, *node))
        }
        Work::Resume(rest, _) => Ok(Expansion::Leaf(*rest)),
    }
}

/// Takes and posts so often at most, and counts the posts.
fn evaluate(alloc: Global, wide: bool, count: u64, turns: u64) -> Result<u64, AllocError> {
    let mut board: Board<u64, u64, u64> = Board::start(alloc, count)?;
    let mut posts = 0u64;
    for _turn in 0..turns {
        if let Taken::Task { ticket, work } = board.take() {
            let made = answer(alloc, wide, work.get())?;
            let _ = board.post(alloc, ticket, made)?;
            posts = posts.wrapping_add(1);
        }
    }
    Ok(posts)
}

fn run(alloc: Global, wide: bool, count: u64, rounds: u64) -> Result<u64, AllocError> {
    let turns = count.saturating_mul(2).saturating_add(1);
    let mut posts = 0u64;
    for _round in 0..rounds {
        posts = posts.wrapping_add(evaluate(alloc, wide, count, turns)?);
    }
    Ok(posts)
}

pub(crate) fn timed(rt: &HostRuntime, words: &[String]) -> io::Result<()> {
    let Some(shape) = words.get(0) else {
        return refused(rt);
    };
    let (Some(count), Some(rounds)) = (number(words, 1), number(words, 2)) else {
        return refused(rt);
    };
    let is_wide = shape.as_str() == "wide";
    match run(rt.alloc(), is_wide, u64::from(count), u64::from(rounds)) {
        Ok(posts) => println!(rt; "{posts}"),
        Err(_) => println!(rt; "no memory"),
    }
}
