use bitnum::Num;
use flat_ir::{
    Address, CallStep, ConcreteByte, ConcreteValue, FrameName, FuncId, NodeId, ObjectName,
    same_frames, same_objects,
};
use std::alloc::{AllocError, Global};
use std::collections::HashMap;
use std::test::Fail;

fn step(count: u64) -> CallStep {
    CallStep {
        func: FuncId(1),
        node: NodeId(2),
        count,
    }
}

fn deep_name(alloc: Global, calls: u64) -> Result<FrameName, AllocError> {
    let mut name = FrameName::main();
    for count in 0..calls {
        name = name.called(alloc, step(count))?;
    }
    Ok(name)
}

#[test]
fn a_million_calls_are_compared_and_dropped(rt: HostRuntime) -> Result<(), Fail> {
    let one = deep_name(rt.alloc(), 1_000_000)?;
    let other = deep_name(rt.alloc(), 1_000_000)?;
    assert!(rt; same_frames(&one, &other));
    assert!(rt; !same_frames(&one, &other.called(rt.alloc(), step(0))?));
    Ok(())
}

#[test]
fn names_of_objects_are_keys(rt: HostRuntime) -> Result<(), Fail> {
    let made = ObjectName::Made {
        frame: deep_name(rt.alloc(), 3)?,
        made: step(7),
    };
    let copy = made.copy()?;
    assert!(rt; same_objects(&made, &copy));
    let mut sizes: HashMap<ObjectName, u64> = HashMap::new(rt.alloc());
    sizes.insert(made, 16)?;
    sizes.insert(ObjectName::Global(4), 8)?;
    assert_eq!(rt; sizes.get(&copy).copied(), Some(16));
    assert_eq!(rt; sizes.get(&ObjectName::Global(4)).copied(), Some(8));
    assert_eq!(rt; sizes.get(&ObjectName::Global(5)).copied(), None);
    Ok(())
}

#[test]
fn values_are_copied(rt: HostRuntime) -> Result<(), Fail> {
    let address = Address {
        base: Some(ObjectName::Global(2)),
        offset: 5,
    };
    assert_eq!(rt; address.copy()?.offset, 5);
    assert!(rt;
        matches!(
            ConcreteByte::PtrByte(address.copy()?, 3).copy()?,
            ConcreteByte::PtrByte(_, 3)
        )
    );
    assert!(rt; matches!(ConcreteByte::Int(9).copy()?, ConcreteByte::Int(9)));
    assert!(rt;
        matches!(ConcreteValue::Int(Num::new(8, 200)).copy()?, ConcreteValue::Int(number) if number.bits() == 200)
    );
    assert!(rt;
        matches!(ConcreteValue::Ptr(address).copy()?, ConcreteValue::Ptr(to) if to.offset == 5)
    );
    Ok(())
}
