use st_image::Page;
use st_pages::{Images, Place, Places};
use std::test::Fail;

const PEOPLE: Place = Place {
    store: 0,
    first: 2,
    key: 4,
    width: 95,
};

fn page_of(kind: u8) -> Page {
    let mut page = Page::blank();
    page.set_kind(kind);
    page
}

#[test]
fn an_image_is_put(rt: HostRuntime) -> Result<(), Fail> {
    let mut images = Images::new(rt.alloc());
    images.put(rt.alloc(), 7, &page_of(2))?;
    images.put(rt.alloc(), 3, &page_of(5))?;
    match images.get(3) {
        Some(image) => assert_eq!(rt; image.kind(), 5),
        None => assert!(rt; false),
    }
    Ok(())
}

#[test]
fn images_are_copied(rt: HostRuntime) -> Result<(), Fail> {
    let mut images = Images::new(rt.alloc());
    images.put(rt.alloc(), 7, &page_of(2))?;
    let copied = images.copy(rt.alloc())?;
    match copied.get(7) {
        Some(image) => assert_eq!(rt; image.kind(), 2),
        None => assert!(rt; false),
    }
    Ok(())
}

#[test]
fn places_are_copied(rt: HostRuntime) -> Result<(), Fail> {
    let mut places = Places::new(rt.alloc());
    places.push(PEOPLE)?;
    let copied = places.copy(rt.alloc())?;
    assert_eq!(rt; copied.find(0), Some(PEOPLE));
    Ok(())
}
