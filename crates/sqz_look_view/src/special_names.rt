//! The names of the fields of the special objects array.

/// What the fields of the special objects array point to whose objects do not say it themselves.
/// The machine that runs an image knows them by these numbers.
const NAMES: [(u32, &str); 17] = [
    (3, "the scheduler"),
    (8, "the globals"),
    (14, "the display"),
    (17, "the low space semaphore"),
    (23, "the special selectors"),
    (24, "the characters"),
    (28, "the compact classes"),
    (29, "the timer semaphore"),
    (30, "the interrupt semaphore"),
    (31, "a Float to copy"),
    (32, "a LargePositiveInteger to copy"),
    (33, "a Point to copy"),
    (35, "a MethodContext to copy"),
    (37, "a BlockContext to copy"),
    (38, "the external objects"),
    (41, "the finalization semaphore"),
    (48, "the selector for a return through a dead context"),
];

/// Returns the name of a field of the special objects array, if it has one.
pub(crate) fn special_name(field: u32) -> Option<&'static str> {
    for (known, name) in NAMES {
        if known == field {
            return Some(name);
        }
    }
    None
}
