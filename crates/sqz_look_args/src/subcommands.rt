//! The subcommands.

ghost use Rattle.std.specs.Prelude.{◌≡◌, map};
ghost use Rattle.sqz_look_args.specs.CommandLine.{listed_of, name_of, subcommands};

use crate::arguments::Argument;

/// The name of a subcommand.
#[derive(Clone, Copy)]
pub(crate) enum Name {
    Check,
    Mend,
    Info,
    Census,
    Digest,
    List,
    Show,
    Why,
    Refs,
    Top,
    Diff,
    Code,
    Senders,
    Implementors,
    Stacks,
    Find,
    Dump,
    Explore,
}

impl Name {
    /// Returns the subcommand that a word stands for.
    pub(crate) fn of(word: &str) -> Option<Name>
        ensures { result ≡ name_of word.now }
    {
        for subcommand in subcommands() {
            if subcommand.word == word {
                return Some(subcommand.name);
            }
        }
        None
    }
}

/// Returns whether the subcommand that a word stands for takes objects.
pub fn takes_objects(word: &str) -> bool {
    for subcommand in subcommands() {
        if subcommand.word == word {
            return subcommand
                .arguments
                .iter()
                .any(|it| matches!(it, Argument::Object));
        }
    }
    false
}

/// A subcommand: its name, the word that stands for it, what it says, its own arguments, and an
/// example.
#[derive(Clone, Copy)]
pub(crate) struct Subcommand {
    pub(crate) name: Name,
    pub(crate) word: &'static str,
    pub(crate) about: &'static str,
    pub(crate) arguments: &'static [Argument],
    pub(crate) example: &'static str,
}

const CHECK: Subcommand = Subcommand {
    name: Name::Check,
    word: "check",
    about: "Say whether images are sound",
    arguments: &[Argument::Images, Argument::AllFaults, Argument::Strict],
    example: "Example:\n  sqzlook check old/*.image",
};

const MEND: Subcommand = Subcommand {
    name: Name::Mend,
    word: "mend",
    about: "Write an image with what cannot be read as free chunks",
    arguments: &[Argument::Image, Argument::Nil],
    example: "Example:\n  sqzlook mend --nil damaged.image > mended.image",
};

const INFO: Subcommand = Subcommand {
    name: Name::Info,
    word: "info",
    about: "Print the format, size and first fault of images",
    arguments: &[Argument::Images],
    example: "Example:\n  sqzlook info Scratch.image",
};

const CENSUS: Subcommand = Subcommand {
    name: Name::Census,
    word: "census",
    about: "Print a class histogram of the live objects",
    arguments: &[
        Argument::Images,
        Argument::Dead,
        Argument::Retained,
        Argument::GroupBy,
        Argument::All,
    ],
    example: "Example:\n  sqzlook census --all Scratch.image",
};

const DIGEST: Subcommand = Subcommand {
    name: Name::Digest,
    word: "digest",
    about: "Print a SHA-256 of the live objects, the same for alike images",
    arguments: &[Argument::Images],
    example: "Example:\n  sqzlook digest old/*.image | sort",
};

const LIST: Subcommand = Subcommand {
    name: Name::List,
    word: "list",
    about: "List the live instances of a class, those that retain most first",
    arguments: &[
        Argument::Image,
        Argument::Class,
        Argument::By,
        Argument::DeadInstances,
        Argument::All,
    ],
    example: "Example:\n  sqzlook list Scratch.image SoundBuffer",
};

const SHOW: Subcommand = Subcommand {
    name: Name::Show,
    word: "show",
    about: "Print what an object is and what its slots hold",
    arguments: &[Argument::Image, Argument::Object, Argument::All],
    example: "Example:\n  sqzlook show Scratch.image 'Point>>+'",
};

const WHY: Subcommand = Subcommand {
    name: Name::Why,
    word: "why",
    about: "Print a shortest path from the roots to an object",
    arguments: &[
        Argument::Image,
        Argument::Object,
        Argument::Raw,
        Argument::All,
    ],
    example: "Example:\n  sqzlook why Scratch.image 1546cbd8",
};

const REFS: Subcommand = Subcommand {
    name: Name::Refs,
    word: "refs",
    about: "Print the live objects that point to an object",
    arguments: &[Argument::Image, Argument::Object, Argument::All],
    example: "Example:\n  sqzlook refs Scratch.image SoundBuffer class",
};

const TOP: Subcommand = Subcommand {
    name: Name::Top,
    word: "top",
    about: "Print what retains most, as a tree",
    arguments: &[
        Argument::Image,
        Argument::Root,
        Argument::Depth,
        Argument::Min,
        Argument::Folded,
    ],
    example: "Example:\n  sqzlook top --min 5 Scratch.image",
};

const DIFF: Subcommand = Subcommand {
    name: Name::Diff,
    word: "diff",
    about: "Print what changed between two images",
    arguments: &[Argument::Old, Argument::New, Argument::All],
    example: "Example:\n  sqzlook diff 1.2.image 1.3.image",
};

const CODE: Subcommand = Subcommand {
    name: Name::Code,
    word: "code",
    about: "Print the code of a class or a method, or the class tree",
    arguments: &[
        Argument::Image,
        Argument::ClassOrMethod,
        Argument::Classes,
        Argument::Unsent,
        Argument::Unimplemented,
        Argument::All,
    ],
    example: "Example:\n  sqzlook code Scratch.image 'Point>>+'",
};

const SENDERS: Subcommand = Subcommand {
    name: Name::Senders,
    word: "senders",
    about: "Print the methods that send a message or name a symbol",
    arguments: &[Argument::Image, Argument::Selector, Argument::All],
    example: "Example:\n  sqzlook senders Scratch.image at:put:",
};

const IMPLEMENTORS: Subcommand = Subcommand {
    name: Name::Implementors,
    word: "implementors",
    about: "Print the methods with a selector",
    arguments: &[Argument::Image, Argument::Selector, Argument::All],
    example: "Example:\n  sqzlook implementors Scratch.image startUp",
};

const STACKS: Subcommand = Subcommand {
    name: Name::Stacks,
    word: "stacks",
    about: "Print the processes and their stacks",
    arguments: &[Argument::Image, Argument::All],
    example: "Example:\n  sqzlook stacks Scratch.image",
};

const FIND: Subcommand = Subcommand {
    name: Name::Find,
    word: "find",
    about: "Print the live strings and symbols that match a regular expression",
    arguments: &[Argument::Image, Argument::Pattern, Argument::All],
    example: "Example:\n  sqzlook find Scratch.image '/Users/|@'",
};

const DUMP: Subcommand = Subcommand {
    name: Name::Dump,
    word: "dump",
    about: "Print all live objects with their slots, as lines of JSON",
    arguments: &[Argument::Image],
    example: "Example:\n  sqzlook dump Scratch.image | jq -c .label",
};

const EXPLORE: Subcommand = Subcommand {
    name: Name::Explore,
    word: "explore",
    about: "Write a page that shows an image in a browser",
    arguments: &[Argument::Image, Argument::MinBytes],
    example: "Example:\n  sqzlook explore Scratch.image > scratch.html",
};

/// Returns all subcommands, in the order of the help.
pub(crate) fn subcommands() -> [Subcommand; 18]
    ensures { map listed_of result ≡ subcommands }
{
    // no constant, since a contract cannot name one that holds references
    [
        CHECK,
        MEND,
        INFO,
        CENSUS,
        DIGEST,
        LIST,
        SHOW,
        WHY,
        REFS,
        TOP,
        DIFF,
        CODE,
        SENDERS,
        IMPLEMENTORS,
        STACKS,
        FIND,
        DUMP,
        EXPLORE,
    ]
}
