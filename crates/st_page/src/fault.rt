use thiserror::Error;

/// Why a call on pages did not do what was asked. Each cause but want of memory has a number, from 1 on. Pages are
/// counted from 0, and are below 65,536.
#[derive(Clone, Copy, Debug, PartialEq, Eq, Error)]
pub enum PageFault {
    /// 1: the bytes of a page are not what has to stand in it.
    #[error("page {page} is damaged at byte {place}")]
    BadPage {
        /// The page.
        page: u32,
        /// The first byte that is wrong, from 0 in the page.
        place: u16,
    },
    /// 2: another client holds a lock of the page.
    #[error("page {page} is held by client {holder}")]
    Conflict {
        /// The page.
        page: u32,
        /// The number of the client that holds it, from 1 to 8.
        holder: u8,
    },
    /// 3: no page is free.
    #[error("no page is free, {in_use} are in use")]
    Full {
        /// How many pages are in use.
        in_use: u32,
    },
    /// 4: a transaction would change more pages than it may.
    #[error("{count} pages would be changed in one transaction")]
    TooManyPages {
        /// How many pages it would change.
        count: u32,
    },
    /// 5: the disk failed.
    #[error("the disk failed")]
    DiskFault,
    /// 6: the pages were closed by an earlier fault.
    #[error("closed by an earlier fault")]
    Closed,
    /// No memory.
    #[error("out of memory")]
    Memory,
}
