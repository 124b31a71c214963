//! Stores and loads: `memory OBJECTS TIMES` makes so many objects, and then stores a value into each in turn and loads it again, so many
//! times in all.
ghost use Rattle.std.specs.Prelude.{◌≤◌};
ghost use Rattle.concrete_memory.specs.Standing.{IsMadeName};

use crate::pointers::program_of;
use crate::words::{number, refused};
use bitnum::Num;
use concrete_memory::Store;
use flat_ir::{Address, CallStep, ConcreteValue, FrameName, FuncId, NodeId, ObjectName, RegType};
use std::alloc::{AllocError, Global};
use std::io;

fn made(count: u64) -> ObjectName
    ensures { IsMadeName result }
{
    ObjectName::Made {
        frame: FrameName::main(),
        made: CallStep {
            func: FuncId(0),
            node: NodeId(0),
            count,
        },
    }
}

fn place(store: &mut Store, count: u64) -> Result<(), AllocError> {
    let name = made(count);
    if store.has(&name) {
        return Ok(());
    }
    store.alloc(name, 8)
}

/// A store with so many objects of eight bytes.
fn filled(alloc: Global, objects: u64) -> Result<Store, AllocError> {
    let mut store = Store::new(alloc, &program_of(alloc, 1, 1)?)?;
    for count in 0..objects {
        place(&mut store, count)?;
    }
    Ok(store)
}

/// Stores a number into an object and loads it again; whether both passed.
fn go_round(store: &mut Store, count: u64) -> bool {
    let at = Address {
        base: Some(made(count)),
        offset: 0,
    };
    let value = ConcreteValue::Int(Num::new(64, count));
    store.store(&at, &value).is_ok() && store.load(&at, RegType::Int(64)).is_ok()
}

fn work(alloc: Global, objects: u64, times: u64) -> Result<u64, AllocError>
    requires { 1 ≤ objects }
{
    let mut store = filled(alloc, objects)?;
    let mut passed = 0u64;
    for k in 0..times {
        if go_round(&mut store, k % objects) {
            passed = passed.wrapping_add(1);
        }
    }
    Ok(passed)
}

pub(crate) fn timed(rt: &HostRuntime, words: &[String]) -> io::Result<()> {
    let (Some(objects), Some(times)) = (number(words, 0), number(words, 1)) else {
        return refused(rt);
    };
    if objects == 0 {
        return println!(rt; "OBJECTS is at least 1");
    }
    match work(rt.alloc(), u64::from(objects), u64::from(times)) {
        Ok(passed) => println!(rt; "{passed} stores and loads"),
        Err(_) => println!(rt; "no memory"),
    }
}
