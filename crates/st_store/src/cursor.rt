use st_image::Page;

/// A place between two rows of a store: a page of rows, as it was when it was got, and how many of its rows are passed.
#[derive(Clone, Copy)]
pub struct Cursor {
    /// The number of the page.
    pub number: u32,
    /// The image of the page.
    pub page: Page,
    /// How many of its rows are passed.
    pub index: u16,
}
