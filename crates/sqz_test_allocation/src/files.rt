//! The bytes of small files, made when the crate is built, so that a test under allocation failures
//! allocates nothing for them.

/// The bytes of words, lowest byte first.
macro_rules! little_endian {
    ($($word:expr),* $(,)?) => {
        [$(
            ($word as u32 & 0xFF) as u8,
            ($word as u32 >> 8 & 0xFF) as u8,
            ($word as u32 >> 16 & 0xFF) as u8,
            ($word as u32 >> 24) as u8
        ),*]
    };
}

/// The bytes of a little-endian file of objects with headers of one word. The first object has the
/// address 0x1000, and one is the special objects array. An object is given by its compact index,
/// its format and its fields.
macro_rules! file_of {
    (special: $special:literal, $(Short($compact:literal, $format:literal, [$($field:literal),*])),* $(,)?) => {
        little_endian![
            6502, 64, 4 * (0 $(+ [0 $(, $field)*].len())*), 0x1000, $special, 0, 0, 0, 0, 0, 0, 0, 0, 0, 0, 0,
            $(3 + 4 * [0 $(, $field)*].len() + 256 * $format + 4096 * $compact $(, $field)*),*
        ]
    };
}

pub(crate) use file_of;
pub(crate) use little_endian;
