//! Cuts and numbers of workers: those that are rejected, and the least and the most that are not.

use sqz_image::Fault;
use sqz_marks::Workers;
use sqz_regions::Cut;
use std::alloc::Global;
use std::test::Fail;

/// How an image is cut.
#[derive(Clone, Copy)]
pub(crate) enum CutBy {
    /// Every so many words.
    Every(u32),
    /// At these words.
    At(&'static [u32]),
}

/// A cut.
pub(crate) fn cut_by(alloc: Global, by: CutBy) -> Result<Cut, Fault> {
    match by {
        CutBy::Every(words) => Cut::every(words),
        CutBy::At(points) => Cut::at(points.to_vec(alloc)?),
    }
}

/// The most words of a region, and the highest cut point.
const MOST_WORDS: u32 = 1 << 30;

/// Cuts, and why they are rejected. None if they are accepted.
const CUTS: &[(CutBy, Option<Fault>)] = &[
    (CutBy::Every(0), Some(Fault::BadCut)),
    (CutBy::Every(MOST_WORDS + 1), Some(Fault::BadCut)),
    (CutBy::Every(1), None),
    (CutBy::Every(MOST_WORDS), None),
    (CutBy::At(&[3, 3]), Some(Fault::BadCut)),
    (CutBy::At(&[3, 2]), Some(Fault::BadCut)),
    (CutBy::At(&[MOST_WORDS + 1]), Some(Fault::BadCut)),
    (CutBy::At(&[2, MOST_WORDS]), None),
    (CutBy::At(&[]), None),
];

#[test]
fn cuts(rt: HostRuntime) {
    for (k, (by, wanted)) in CUTS.iter().enumerate() {
        assert_eq!(rt; cut_by(rt.alloc(), *by).err(), *wanted, "cut {k}");
    }
}

/// The number of workers. Fails if it is rejected.
fn number_of(number: u32) -> Result<u32, Fault> {
    Ok(Workers::new(number)?.number())
}

/// Numbers of workers, and what becomes of them.
const NUMBERS: &[(u32, Result<u32, Fault>)] = &[
    (0, Err(Fault::BadWorkers)),
    (65, Err(Fault::BadWorkers)),
    (1, Ok(1)),
    (64, Ok(64)),
];

#[test]
fn numbers_of_workers(rt: HostRuntime) {
    for (number, wanted) in NUMBERS {
        assert_eq!(rt; number_of(*number), *wanted);
    }
}
