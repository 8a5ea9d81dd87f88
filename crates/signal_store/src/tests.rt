use super::*;
use java_values::Kind;
use std::test::Fail;

#[test]
fn registers_keep_their_numbers(rt: HostRuntime) -> Result<(), Fail> {
    let kinds = [Kind::Int, Kind::Boolean, Kind::Byte];
    let mut store = Store::open(rt.alloc(), &kinds)?;
    assert_eq!(rt; store.len(), 3);
    store.set(1, 1);
    store.set(2, -128);
    assert_eq!(rt; store.get(0), 0);
    assert_eq!(rt; store.get(1), 1);
    assert_eq!(rt; store.get(2), -128);
    assert_eq!(rt; store.kind(2), Kind::Byte);
    Ok(())
}

#[test]
fn numbers_are_handed_in_once(rt: HostRuntime) -> Result<(), Fail> {
    let mut inputs = Inputs::new(rt.alloc());
    assert_eq!(rt; inputs.add(3, 1, 7)?, true);
    assert_eq!(rt; inputs.add(3, 1, 8)?, false);
    assert_eq!(rt; inputs.add(1, 3, 9)?, true);
    let shared = threads_share_inputs(&inputs);
    assert_eq!(rt; shared.at(3, 1), Some(7));
    assert_eq!(rt; shared.at(1, 3), Some(9));
    assert_eq!(rt; shared.at(3, 2), None);
    Ok(())
}
