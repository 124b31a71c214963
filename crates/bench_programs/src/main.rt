//! Work that the scripts of `bench/` time: the first word says which, and the others how much of it. The word `each` does each once, of a small size.
#![tactic(auto)]

mod boards;
mod conditions;
mod explorations;
mod logs;
mod pointers;
mod shared_terms;
mod slicing;
mod solving;
mod stores;
mod texts;
mod words;

use std::alloc::{AllocError, Global};
use std::{env, io};
use words::refused;

/// Small work of each kind; the file is one of `data/`.
const SMALL: [&str; 9] = [
    "memory 3 7",
    "terms walk 5 2",
    "log read 3 2",
    "solver search sum 1 1",
    "board wide 3 1",
    "reader read exchanges.ll",
    "machine 2 1 exchanges.ll",
    "points_to 3 3",
    "slice 3 3",
];

fn timed(rt: &HostRuntime, what: &str, words: &[String]) -> io::Result<()> {
    match what {
        "memory" => stores::timed(rt, words),
        "terms" => shared_terms::timed(rt, words),
        "log" => logs::timed(rt, words),
        "solver" => solving::timed(rt, words),
        "board" => boards::timed(rt, words),
        "reader" => texts::timed(rt, words),
        "machine" => explorations::timed(rt, words),
        "points_to" => pointers::timed(rt, words),
        "slice" => slicing::timed(rt, words),
        _ => refused(rt),
    }
}

fn timed_by(rt: &HostRuntime, words: &[String]) -> io::Result<()> {
    match words.split_first() {
        Some((what, others)) => timed(rt, what.as_str(), others),
        None => refused(rt),
    }
}

fn words_of(alloc: Global, line: &str) -> Result<Vec<String>, AllocError> {
    let mut words = Vec::new(alloc);
    for word in line.split_whitespace() {
        words.push(String::from_str(alloc, word)?)?;
    }
    Ok(words)
}

fn small_work(rt: &HostRuntime) -> io::Result<()> {
    for line in SMALL {
        println!(rt; "{line}")?;
        let Ok(words) = words_of(rt.alloc(), line) else {
            return println!(rt; "no memory");
        };
        timed_by(rt, words.as_slice())?;
    }
    Ok(())
}

fn main(rt: HostRuntime) -> io::Result<()> {
    let Ok(words) = env::args(&rt)?.skip(1).collect::<Vec<String>>(rt.alloc()) else {
        return println!(rt; "no memory");
    };
    if let [word] = words.as_slice() {
        if word.as_str() == "each" {
            return small_work(&rt);
        }
    }
    timed_by(&rt, words.as_slice())
}
