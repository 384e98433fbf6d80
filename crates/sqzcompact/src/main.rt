//! The program `sqzcompact`: writes an image with its reachable objects alone.
#![tactic(auto)]

use sqz_cli::words_or_exit;
use sqz_image::WriteSink;
use sqz_tool::program;
use std::process::ExitCode;

fn main(rt: HostRuntime) -> ExitCode {
    let mut out = WriteSink::new(rt.stdout());
    let mut err = WriteSink::new(rt.stderr());
    let exit = match words_or_exit(&rt, rt.alloc(), &mut err) {
        Ok(words) => program(&rt, rt.alloc(), &words, &mut out, &mut err),
        Err(exit) => exit,
    };
    ExitCode::from(exit)
}
