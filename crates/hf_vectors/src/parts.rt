//! Boxes of files, and a whole file.

/// The handler of pictures.
pub const HDLR: &[u8] = b"\0\0\0\x21hdlr\0\0\0\0\0\0\0\0pict\0\0\0\0\0\0\0\0\0\0\0\0\0";

/// Item 1 is the primary one.
pub const PITM: &[u8] = b"\0\0\0\x0epitm\0\0\0\0\0\x01";

/// One picture of three bytes: the canonical file of its store, 193 bytes.
pub const ONE: &[u8] = b"\0\0\0\x18ftypheic\0\0\0\0mif1heic\
    \0\0\0\x9emeta\0\0\0\0\
    \0\0\0\x21hdlr\0\0\0\0\0\0\0\0pict\0\0\0\0\0\0\0\0\0\0\0\0\0\
    \0\0\0\x0epitm\0\0\0\0\0\x01\
    \0\0\0\x23iinf\0\0\0\0\0\x01\0\0\0\x15infe\x02\0\0\0\0\x01\0\0hvc1\0\
    \0\0\0\x20iprp\0\0\0\x08ipco\0\0\0\x10ipma\0\0\0\0\0\0\0\0\
    \0\0\0\x20iloc\x01\0\0\0\x44\0\0\x01\0\x01\0\0\0\0\0\x01\0\0\0\xbe\0\0\0\x03\
    \0\0\0\x0bmdat\xaa\xbb\xcc";
