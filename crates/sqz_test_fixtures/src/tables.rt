//! All worked images.

use super::worked::WorkedImage;
use super::{
    accepted, unreadable, with_bad_contexts, with_bad_headers, with_bad_methods, with_classes,
    with_contexts, with_defects, with_formats, with_other_bytes, with_weak_classes,
    with_weak_objects,
};

/// All worked images, those of each module in a table of their own.
pub fn worked_tables() -> [&'static [WorkedImage]; 12] {
    [
        accepted::images(),
        unreadable::images(),
        with_bad_contexts::images(),
        with_bad_headers::images(),
        with_bad_methods::images(),
        with_classes::images(),
        with_contexts::images(),
        with_defects::images(),
        with_formats::images(),
        with_other_bytes::images(),
        with_weak_classes::images(),
        with_weak_objects::images(),
    ]
}
