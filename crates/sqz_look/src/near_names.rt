//! Names that are near to words that name nothing.

ghost use Rattle.sqz_look_view.specs.Inspectors.{IsObjectOf};

use sqz_look_view::Inspector;
use sqz_names::Label;
use sqz_object::ObjectIndex;
use std::alloc::{AllocError, Global};
use std::fmt;
use strsim::levenshtein;

/// The maximum number of names that are near.
const MOST_NAMES: usize = 3;

/// The maximum length in bytes of words to which names are near.
const MOST_BYTES: usize = 80;

/// The number of bytes of words for one more edit that leads to a near name.
const BYTES_PER_EDIT: usize = 4;

/// Names near to words, printed as the end of a message.
#[derive(Drop)]
pub(crate) struct NearNames {
    alloc: Global,
    /// The words in lower case.
    words: String,
    /// The nearest names, each with the number of edits that lead to it: fewest first, and on a tie
    /// in the order of their texts.
    names: Vec<(usize, String)>,
}

/// Returns the names near to words: of methods if the words are `CLASS>>SELECTOR`, else of classes,
/// globals and class variables.
pub(crate) fn near_names(inspector: &Inspector<'_>, words: &str) -> Result<NearNames, AllocError> {
    let mut near = NearNames::to(inspector.alloc, words)?;
    let has_method = words.split_once(">>").is_some();
    for object in 0..inspector.live.graph.heap.len() {
        match inspector.names.label_of(object)? {
            Label::Method { .. } if has_method => {
                let label = inspector.names.label(object)?;
                near.add(label.as_str(), label.as_str())?;
            }
            _ if has_method => {}
            Label::Class | Label::Metaclass => near.add_class(inspector, object)?,
            Label::Global { key } | Label::ClassVariable { key, .. } => {
                let (key, label) = (inspector.names.text(key)?, inspector.names.label(object)?);
                near.add(key.as_str(), label.as_str())?;
            }
            _ => {}
        }
    }
    Ok(near)
}

/// Returns the names of classes near to words.
pub(crate) fn near_classes(
    inspector: &Inspector<'_>,
    words: &str,
) -> Result<NearNames, AllocError> {
    let mut near = NearNames::to(inspector.alloc, words)?;
    for object in 0..inspector.live.graph.heap.len() {
        if inspector.names.is_class(object) {
            near.add_class(inspector, object)?;
        }
    }
    Ok(near)
}

impl NearNames {
    /// Returns no names near to words.
    fn to(alloc: Global, words: &str) -> Result<Self, AllocError> {
        Ok(NearNames {
            alloc,
            words: words.to_ascii_lowercase(alloc)?,
            names: Vec::new(alloc),
        })
    }

    /// Adds the name of a class if it is near.
    fn add_class(&mut self, inspector: &Inspector<'_>, class: ObjectIndex) -> Result<(), AllocError>
        requires { IsObjectOf inspector.now class }
    {
        let name = inspector.names.name_of_class(class)?;
        self.add(name.as_str(), name.as_str())
    }

    /// Adds a label if the name in it is near, and leaves out the farthest one if they are many.
    fn add(&mut self, name: &str, label: &str) -> Result<(), AllocError> {
        let Some(edits) = self.edits_to(name)? else {
            return Ok(());
        };
        for (_, known) in &self.names {
            if known.as_str() == label {
                return Ok(());
            }
        }
        let is_before = |other: &(usize, String)| {
            other.0 < edits || (other.0 == edits && other.1.as_str() < label)
        };
        let place = self.names.partition_point(is_before);
        if place < MOST_NAMES {
            self.names
                .insert(place, (edits, String::from_str(self.alloc, label)?))?;
            self.names.truncate(MOST_NAMES);
        }
        Ok(())
    }

    /// Returns the number of edits that lead from the words to a name, in any case of the letters.
    /// None if it is not near.
    fn edits_to(&self, name: &str) -> Result<Option<usize>, AllocError> {
        let words = self.words.as_str();
        let most = 1 + words.len() / BYTES_PER_EDIT;
        if words.len() > MOST_BYTES || name.len().abs_diff(words.len()) > most {
            return Ok(None);
        }
        let name = name.to_ascii_lowercase(self.alloc)?;
        let edits = levenshtein(self.alloc, words, name.as_str())?;
        Ok((edits <= most).then_some(edits))
    }
}

impl fmt::Display for NearNames {
    fn fmt<W: fmt::Write>(&self, f: &mut fmt::Formatter<W>) -> fmt::Result {
        for (index, (_, name)) in self.names.iter().enumerate() {
            f.write_str(if index == 0 { "; near: " } else { ", " })?;
            f.write_str(name.as_str())?;
        }
        Ok(())
    }
}
