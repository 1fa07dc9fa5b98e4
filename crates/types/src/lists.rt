// What a mark list says beside its marks.

// The first line of a list.
#[derive(Clone, Copy)]
pub struct Header {
    pub base: u32,
    pub length: u32,
    pub reset: u32,
}
