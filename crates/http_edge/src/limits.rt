//! The limits of a message. All count bytes, but for the number of fields.

/// The most fields of a head, and of a trailer section.
pub const MAX_FIELDS: usize = 64;

/// The most bytes of a head, with its empty line and any empty lines before it.
pub const MAX_HEAD: usize = 16_384;

/// The most bytes of a decoded body.
pub const MAX_BODY: usize = 4_194_304;

/// The most bytes of a chunk's size line, with its end.
pub const MAX_LINE: usize = 1_024;

/// The most bytes of a trailer section, with its empty line.
pub const MAX_TRAILER: usize = 16_384;

/// The most bytes that one call asks a source for.
pub const MAX_PIECE: usize = 16_384;
