//! Images that whole runs are tested on: the file of each, and what a run over it writes.

use super::files::{file_of, little_endian};
use sqz_tool::Summary;

/// An image's file, and what a run over it writes and counts.
#[derive(Clone, Copy)]
pub(crate) struct Row {
    pub file: &'static [u8],
    pub answer: &'static [u8],
    pub census: &'static str,
    pub summary: Summary,
}

/// The text of the census of `DEAD_CYCLE`.
const DEAD_CYCLE_CENSUS: &str = concat!(
    "         3           20 -------- compact 1\n",
    "         1           12 -------- compact 3\n",
    "         4           32 total\n",
);

/// Two dead objects point to each other, and so do two live ones.
pub(crate) const DEAD_CYCLE: Row = Row {
    file: &file_of![
        special: 0x1024,
        Short(1, 0, []),
        Short(1, 1, [0x1014]),
        Short(1, 1, [0x101C]),
        Short(1, 1, [0x1004]),
        Short(1, 1, [0x100C]),
        Short(3, 2, [0x1000, 0x1004]),
    ],
    answer: &file_of![
        special: 0x1014,
        Short(1, 0, []),
        Short(1, 1, [0x100C]),
        Short(1, 1, [0x1004]),
        Short(3, 2, [0x1000, 0x1004]),
    ],
    census: DEAD_CYCLE_CENSUS,
    summary: Summary {
        objects: 6,
        kept: 4,
        data_before: 48,
        data_after: 32,
    },
};

/// The text of the census of `DEAD_ARRAY`.
const DEAD_ARRAY_CENSUS: &str = concat!(
    "         1            8 -------- compact 3\n",
    "         1            4 -------- compact 1\n",
    "         2           12 total\n",
);

/// A dead array between nil and the special objects array.
const DEAD_ARRAY: Row = Row {
    file: &file_of![
        special: 0x1010,
        Short(1, 0, []),
        Short(3, 2, [1, 1]),
        Short(3, 2, [0x1000]),
    ],
    answer: &file_of![special: 0x1004, Short(1, 0, []), Short(3, 2, [0x1000])],
    census: DEAD_ARRAY_CENSUS,
    summary: Summary {
        objects: 3,
        kept: 2,
        data_before: 24,
        data_after: 12,
    },
};

/// The text of the census of `CLASS_NAMES`.
const CLASS_NAMES_CENSUS: &str = concat!(
    "         2          128 -------- compact 3\n",
    "         2           36 00001004 Object\n",
    "         1           12 -------- compact 2\n",
    "         5          176 total\n",
);

/// A class with a name. No object is dead.
const CLASS_NAMES: Row = Row {
    file: &CLASS_NAMES_FILE,
    answer: &CLASS_NAMES_FILE,
    census: CLASS_NAMES_CENSUS,
    summary: Summary {
        objects: 5,
        kept: 5,
        data_before: 176,
        data_after: 176,
    },
};

/// Its file. Field 28 of the special objects array points to the array of compact classes.
const CLASS_NAMES_FILE: [u8; 240] = file_of![
    special: 0x1038,
    Short(1, 0, []),
    Short(1, 1, [1, 1, 1, 1, 1, 1, 0x1024]),
    Short(2, 10, [0x656A_624F, 0x7463]),
    Short(3, 2, [0x1004]),
    Short(
        3,
        2,
        [
            0x1000, 1, 1, 1, 1, 1, 1, 1, 1, 1, 1, 1, 1, 1,
            1, 1, 1, 1, 1, 1, 1, 1, 1, 1, 1, 1, 1, 1, 0x1030
        ]
    ),
];

/// All of them.
pub(crate) const ROWS: [Row; 3] = [DEAD_ARRAY, DEAD_CYCLE, CLASS_NAMES];
