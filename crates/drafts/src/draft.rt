// A new file that is ready to be written out.
ghost use Rattle.std.specs.Prelude.{◌≤◌};

// The bytes of a page. No file that is put on it has more than 3,531: 11, and for each of 64 articles a
// record of at most 55, with a name that is one byte too long.
pub const PAGE: usize = 4096;

// The new file, in the first `len` bytes of the page.
#[derive(Clone, Copy)]
pub struct Draft {
    pub len: usize,
    pub page: [u8; PAGE],
    ghost fits: { len ≤ 4096 },
}
