//! The lines of faults that no other test meets, and that of words that are no text, and the exit
//! that goes with each.

use sqz_cli::{refuse, refuse_words};
use sqz_image::{Fault, MemorySink, Slot};
use std::process::Abort;
use std::test::Fail;

/// Faults, the exit that goes with each, and its line.
const LINES: [(Fault, u8, &str); 3] = [
    (
        Fault::BadPointer {
            address: 0x1004,
            slot: Slot::Field(10),
        },
        1,
        "fault 14: bad pointer in object 00001004, field 10\n",
    ),
    (
        Fault::BadPointer {
            address: 0xFFFF_FFFC,
            slot: Slot::ClassWord,
        },
        1,
        "fault 14: bad pointer in object fffffffc, class\n",
    ),
    (Fault::OutOfMemory, 4, "fault 15: out of memory\n"),
];

/// Asserts which exit was given, and that this line was printed.
fn assert_line<R: Abort>(rt: &R, exit: u8, err: &MemorySink, wanted: u8, line: &str) {
    assert_eq!(rt;
        (exit, err.contents()),
        (wanted, line.as_bytes()),
        "at {line}"
    );
}

#[test]
fn lines_of_faults(rt: HostRuntime) -> Result<(), Fail> {
    for (fault, wanted, line) in &LINES {
        let mut err = MemorySink::new(rt.alloc(), 100, None)?;
        let exit = refuse(fault, &mut err);
        assert_line(&rt, exit, &err, *wanted, line);
    }
    Ok(())
}

/// If standard error takes nothing, the exits are the same.
#[test]
fn exits_without_lines(rt: HostRuntime) -> Result<(), Fail> {
    for (fault, wanted, _) in &LINES {
        let mut err = MemorySink::new(rt.alloc(), 0, None)?;
        let exit = refuse(fault, &mut err);
        assert_line(&rt, exit, &err, *wanted, "");
    }
    let mut err = MemorySink::new(rt.alloc(), 0, None)?;
    let exit = refuse_words(&mut err);
    assert_line(&rt, exit, &err, 2, "");
    Ok(())
}

#[test]
fn line_of_words_that_are_no_text(rt: HostRuntime) -> Result<(), Fail> {
    let mut err = MemorySink::new(rt.alloc(), 100, None)?;
    let exit = refuse_words(&mut err);
    assert_line(&rt, exit, &err, 2, "error: an argument is not valid text\n");
    Ok(())
}
