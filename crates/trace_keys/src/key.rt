//! What the events of one trace have in common.

/// What the events of one trace have in common, as it stands in a line.
#[derive(Drop)]
pub struct KeyParts<'a> {
    /// The number of the file, counted from 0.
    pub file: u32,
    /// How many separator lines stand before the event in the file.
    pub section: u32,
    /// The trace text of the line.
    pub text: &'a str,
}

/// What the events of one trace have in common, as it is kept.
#[derive(Drop)]
pub struct ShownKey<'a> {
    /// The number of the file, counted from 0.
    pub file: u32,
    /// How many separator lines stand before the event in the file.
    pub section: u32,
    /// The bytes of the trace text, which are UTF-8.
    pub text: &'a [u8],
}
