//! The questions.

use crate::counting::Counting;
use crate::grouping::Grouping;
use crate::list_order::ListOrder;
use crate::top_options::TopOptions;
use regex::bytes::Regex;

/// A question, one for each thing that a command line can ask. An image is the path of its file. An
/// object, a class or a method is the words that stand for it, joined by spaces.
#[derive(Drop)]
pub enum Question<'a> {
    /// Whether images are sound.
    Check {
        images: Vec<&'a str>,
        /// Whether all faults are asked for, and not only the first.
        all: bool,
        /// Whether warnings are asked for.
        strict: bool,
    },
    /// The image with what cannot be read as free chunks.
    Mend {
        image: &'a str,
        /// Whether pointers that lead nowhere are to become nil.
        nil: bool,
    },
    /// The format, the size and the first fault of each image.
    Info {
        images: Vec<&'a str>,
    },
    /// A class histogram of each image.
    Census {
        images: Vec<&'a str>,
        counting: Counting,
        by: Grouping,
    },
    /// The digest of the live objects of each image.
    Digest {
        images: Vec<&'a str>,
    },
    /// The instances of a class.
    List {
        image: &'a str,
        class: String,
        which: Instances,
    },
    /// What each object is, and what its slots hold.
    Show {
        image: &'a str,
        objects: Vec<String>,
    },
    /// A shortest path to each object.
    Why {
        image: &'a str,
        objects: Vec<String>,
        /// Whether each step of the path is asked for.
        raw: bool,
    },
    /// The live objects that point to each object.
    Refs {
        image: &'a str,
        objects: Vec<String>,
    },
    /// The dominator tree below an object, or from the special objects array.
    Top {
        image: &'a str,
        object: Option<String>,
        options: TopOptions,
    },
    /// What changed between two images.
    Diff {
        old: &'a str,
        new: &'a str,
    },
    /// The code of a class or a method.
    Code {
        image: &'a str,
        object: String,
    },
    /// The tree of all classes.
    Classes {
        image: &'a str,
    },
    /// The methods whose selectors no method sends or names.
    Unsent {
        image: &'a str,
    },
    /// The selectors that methods send and no class implements.
    Unimplemented {
        image: &'a str,
    },
    /// The methods that send a selector.
    Senders {
        image: &'a str,
        selector: &'a str,
    },
    /// The methods with a selector.
    Implementors {
        image: &'a str,
        selector: &'a str,
    },
    /// The processes and their stacks.
    Stacks {
        image: &'a str,
    },
    /// The strings that match a regular expression.
    Find {
        image: &'a str,
        pattern: Regex,
    },
    /// All live objects with their slots.
    Dump {
        image: &'a str,
    },
    /// A page that shows the image in a browser.
    Explore {
        image: &'a str,
        /// The least number of bytes that an object of the page retains, if not all are on it.
        min: Option<u32>,
    },
}

/// Which instances of a class are listed.
#[derive(Clone, Copy)]
pub enum Instances {
    /// The live ones, in an order.
    Live(ListOrder),
    /// Those that are not live, largest first.
    Dead,
}
