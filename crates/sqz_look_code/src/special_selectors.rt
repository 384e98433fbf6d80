//! The selectors that have bytecodes of their own.

/// The index of the special selector that makes a block of the code after it.
pub(crate) const BLOCK_COPY: u8 = 24;

/// The special selectors, in the order of their bytecodes.
const NAMES: [&str; 32] = [
    "+",
    "-",
    "<",
    ">",
    "<=",
    ">=",
    "=",
    "~=",
    "*",
    "/",
    "\\\\",
    "@",
    "bitShift:",
    "//",
    "bitAnd:",
    "bitOr:",
    "at:",
    "at:put:",
    "size",
    "next",
    "nextPut:",
    "atEnd",
    "==",
    "class",
    "blockCopy:",
    "value",
    "value:",
    "do:",
    "new",
    "new:",
    "x",
    "y",
];

/// Returns the name of the special selector with an index. None if there is none.
pub(crate) fn special_name(index: u8) -> Option<&'static str> {
    NAMES.get(usize::from(index)).copied()
}
