//! Which part of a tree has rows.

ghost use Rattle.std.specs.Prelude.{◌≡◌, ◌<◌, ◌^◌, min};
ghost use Rattle.sqz_answers.specs.Limits.{most_depth};
ghost use Rattle.sqz_look_args.specs.Percents.{least_bytes};
ghost use Rattle.sqz_look_top.specs.Options.{depth_asked, share_asked};

use sqz_answers::{MOST_DEPTH, TopLimits};
use sqz_look_args::{Percent, TopOptions};
use sqz_object::ObjectIndex;

/// The maximum depth of rows, in levels below the first row, unless another is requested.
const ROW_DEPTH: u32 = 4;

/// The least share of what the first row retains that has a row of its own, unless another is
/// requested, in tenths of a percent.
const LEAST_ROW: u32 = 10;

/// Returns which part of the tree below an object that retains `whole` bytes has rows.
pub(crate) fn limits_of(options: TopOptions, root: ObjectIndex, whole: u64) -> TopLimits
    ensures root { result.root ≡ root }
    ensures depth { result.depth ≡ min (depth_asked options.depth) most_depth }
    ensures bytes { whole < 2 ^ 37
        → result.bytes ≡ least_bytes (share_asked options.min) whole }
{
    let least = options.min.unwrap_or(Percent::tenths(LEAST_ROW));
    TopLimits {
        root,
        depth: options.depth.unwrap_or(ROW_DEPTH).min(MOST_DEPTH),
        bytes: least.bytes_of(whole),
    }
}
