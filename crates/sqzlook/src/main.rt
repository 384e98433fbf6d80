//! The program `sqzlook`: says what is in a Squeak image, and what keeps it alive.
#![tactic(auto)]

use sqz_image::WriteSink;
use sqz_look_cli::{QuietPipe, look, look_words, with_lines};
use std::process::ExitCode;

fn main(rt: HostRuntime) -> ExitCode {
    let mut out = WriteSink::new(QuietPipe::new(rt.stdout()));
    let mut err = WriteSink::new(rt.stderr());
    let exit = match look_words(&rt, rt.alloc(), &mut err) {
        Ok(words) => match with_lines(rt.alloc(), words, rt.stdin(), &mut err) {
            Ok(words) => look(&rt, rt.alloc(), &words, &mut out, &mut err),
            Err(exit) => exit,
        },
        Err(exit) => exit,
    };
    ExitCode::from(exit)
}
