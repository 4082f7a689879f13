//! Vectors of which values fit, and of their order.
use super::*;
use std::alloc::Global;
use std::cmp::Ordering;
use std::process::Abort;
use std::test::Fail;

fn bytes_value(alloc: Global, bytes: &[u8]) -> Result<Value, Fail> {
    Ok(Value::Bytes(ByteList::from_vec(bytes.to_vec(alloc)?)))
}

fn assert_fits(rt: &impl Abort, kind: ColType, value: Value, want: bool) {
    assert_eq!(rt; fits(&kind, &value), want);
}

fn assert_less(rt: &impl Abort, kind: ColType, less: Value, greater: Value) {
    assert_eq!(rt; compare(&kind, &less, &greater), Ordering::Less);
}

#[test]
fn values_of_a_type(rt: HostRuntime) -> Result<(), Fail> {
    let alloc = rt.alloc();
    assert_fits(&rt, ColType::TinyInt, Value::Number(-128), true);
    assert_fits(&rt, ColType::TinyInt, Value::Number(128), false);
    assert_fits(&rt, ColType::Int, Value::Number(-2147483649), false);
    assert_fits(&rt, ColType::Int, Value::Truth(true), false);
    assert_fits(&rt, ColType::Text, bytes_value(alloc, &[0xFF])?, false);
    assert_fits(&rt, ColType::Blob, bytes_value(alloc, &[0xFF])?, true);
    Ok(())
}

#[test]
fn order_of_values(rt: HostRuntime) -> Result<(), Fail> {
    let alloc = rt.alloc();
    let descending = ColType::Reversed(Box::new(alloc, ColType::Int)?);
    assert_less(&rt, descending, Value::Number(2), Value::Number(1));
    assert_less(&rt, ColType::Int, Value::Number(-1), Value::Number(1));
    assert_less(
        &rt,
        ColType::Blob,
        bytes_value(alloc, &[0x7F])?,
        bytes_value(alloc, &[0x80])?,
    );
    assert_less(
        &rt,
        ColType::Text,
        bytes_value(alloc, b"a")?,
        bytes_value(alloc, b"ab")?,
    );
    Ok(())
}
