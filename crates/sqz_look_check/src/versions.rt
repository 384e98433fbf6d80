//! What an unsupported version is called.

/// The versions of images that other virtual machines save, and what they are called.
const VERSIONS: [(u32, &str); 10] = [
    (6504, "Squeak 32-bit with closures"),
    (6505, "Cog 32-bit"),
    (6521, "Spur 32-bit"),
    (7033, "Sista 32-bit"),
    (68000, "Squeak 64-bit"),
    (68002, "Squeak 64-bit with closures"),
    (68003, "Cog 64-bit"),
    (68019, "early Spur 64-bit"),
    (68021, "Spur 64-bit"),
    (68533, "Sista 64-bit"),
];

/// Returns what a version is called, if it is known.
pub(crate) fn version_name(version: u32) -> Option<&'static str> {
    for (known, name) in VERSIONS {
        if known == version {
            return Some(name);
        }
    }
    None
}
