use sqlite_items::Items;
use st_text::{Duplicate, Letters};
use std::alloc::{AllocError, Global};
use std::test::Fail;

/// Whether a copy equals what it copies, by way of the bound, which a generic caller has alone.
fn is_copied<T: Duplicate + PartialEq + Drop>(alloc: Global, item: T) -> Result<bool, AllocError> {
    Ok(item.copy(alloc)? == item)
}

#[test]
fn plain_values_are_copied(rt: HostRuntime) -> Result<(), Fail> {
    let alloc = rt.alloc();
    assert!(rt; is_copied(alloc, 7u8)?);
    assert!(rt; is_copied(alloc, 700u16)?);
    assert!(rt; is_copied(alloc, 70_000u32)?);
    assert!(rt; is_copied(alloc, u64::MAX)?);
    assert!(rt; is_copied(alloc, i64::MIN)?);
    assert!(rt; is_copied(alloc, true)?);
    Ok(())
}

#[test]
fn lists_of_numbers_are_copied(rt: HostRuntime) -> Result<(), Fail> {
    let serials = Items::from_slice(rt.alloc(), [12u32, 0, 4_294_967_295].as_slice())?;
    let copy = serials.copy(rt.alloc())?;
    assert_eq!(rt; copy.as_slice(), [12u32, 0, 4_294_967_295].as_slice());
    Ok(())
}

#[test]
fn lists_of_texts_are_copied(rt: HostRuntime) -> Result<(), Fail> {
    let mut names = Items::new(rt.alloc());
    names.push(Letters::from_text(rt.alloc(), "person")?)?;
    names.push(Letters::new(rt.alloc()))?;
    names.push(Letters::from_text(rt.alloc(), "café")?)?;
    let copy = names.copy(rt.alloc())?;
    assert_eq!(rt; copy.as_slice(), names.as_slice());
    assert_eq!(rt; copy.len(), 3);
    Ok(())
}

#[test]
fn a_text_is_built(rt: HostRuntime) -> Result<(), Fail> {
    let mut text = Letters::new(rt.alloc());
    assert!(rt; text.is_empty());
    text.push_str("caf")?;
    text.push('é')?;
    assert_eq!(rt; text.as_str(), "café");
    assert_eq!(rt; (text.len(), text.is_empty()), (5, false));
    assert_eq!(rt; (text.get(3), text.get(5)), (Some(0xc3), None));
    Ok(())
}

#[test]
fn a_text_is_moved_and_copied(rt: HostRuntime) -> Result<(), Fail> {
    let text = Letters::from_text(rt.alloc(), "Ada")?;
    assert_eq!(rt; text.as_slice(), b"Ada".as_slice());
    assert_eq!(rt; text.copy(rt.alloc())?, text);
    assert_ne!(rt; Letters::from_text(rt.alloc(), "Adam")?, text);
    assert_eq!(rt; Letters::from_string(text.into_string()).as_str(), "Ada");
    Ok(())
}

#[test]
fn a_text_of_bytes(rt: HostRuntime) -> Result<(), Fail> {
    let bytes = [66, 111, 98].to_vec(rt.alloc())?;
    assert_eq!(rt; Letters::from_utf8(bytes).as_str(), "Bob");
    Ok(())
}
