//! Words of the command line that are not valid text.

ghost use Rattle.std.specs.Prelude.{◌≡◌, codes};
ghost use Rattle.sqz_cli.specs.Lines.{Prints};

use crate::exits::BAD_ARGUMENTS;
use crate::printing::print;
use sqz_image::Sink;

/// Prints one line, which says that a word of the command line is not valid text, and returns the
/// exit code.
pub fn refuse_words<E: Sink>(err: &mut E) -> u8
    ensures exit { result ≡ 2 }
    ensures line { Prints (E.state err.old) (E.state err.new)
        (codes "error: an argument is not valid text\n") }
{
    print(err, b"error: an argument is not valid text\n");
    BAD_ARGUMENTS
}
