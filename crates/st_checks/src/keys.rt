use st_keys::{EntityId, KeyFault, Kind, Value, decode_key, encode_key};
use std::test::Fail;

#[test]
fn a_text_is_read_from_its_key(rt: HostRuntime) -> Result<(), Fail> {
    let key = [0x61, 0x62, 0, 0, 2];
    match decode_key(rt.alloc(), key.as_slice(), Kind::Text(4))? {
        Value::Text(text) => assert_eq!(rt; text.as_str(), "ab"),
        _ => assert!(rt; false),
    }
    Ok(())
}

#[test]
fn other_values_are_read_from_their_keys(rt: HostRuntime) -> Result<(), Fail> {
    let integer = [0x7f, 0xff, 0xff, 0xff, 0xff, 0xff, 0xff, 0xff];
    match decode_key(rt.alloc(), integer.as_slice(), Kind::Int)? {
        Value::Int(number) => assert_eq!(rt; number, -1),
        _ => assert!(rt; false),
    }
    match decode_key(rt.alloc(), [0, 1, 0, 0, 0, 12].as_slice(), Kind::Entity(1))? {
        Value::Entity(entity) => assert_eq!(rt; entity, EntityId { ty: 1, serial: 12 }),
        _ => assert!(rt; false),
    }
    Ok(())
}

#[test]
fn bytes_that_are_no_key_are_refused_at_the_last_one(rt: HostRuntime) -> Result<(), Fail> {
    let padded_with_one = [0x61, 0x62, 0, 1, 2];
    match decode_key(rt.alloc(), padded_with_one.as_slice(), Kind::Text(4)) {
        Err(fault) => assert_eq!(rt; fault, KeyFault::BadKey { place: 4 }),
        Ok(_) => assert!(rt; false),
    }
    Ok(())
}

#[test]
fn an_integer_is_written(rt: HostRuntime) -> Result<(), Fail> {
    let mut key = [0; 8];
    encode_key(&Value::Int(5), Kind::Int, key.as_mut_slice())?;
    assert_eq!(rt; key, [0x80, 0, 0, 0, 0, 0, 0, 5]);
    Ok(())
}
