//! The dominator tree of an image with its variables.

ghost use Rattle.std.specs.Prelude.{◌≡◌};
ghost use Rattle.sqz_answers.specs.Levels.{held_value, is_joined};
ghost use Rattle.sqz_answers.specs.TopRows.{is_shown};

use crate::limits::TopLimits;
use crate::variable_parts::VariableParts;
use sqz_dominators::{Children, Dominators};
use sqz_object::ObjectIndex;
use sqz_trace::ObjectGraph;

/// The dominator tree of an image, its variables, and the bounds of the rows.
#[derive(Drop)]
pub(crate) struct TopTree<'a> {
    pub(crate) graph: ObjectGraph<'a>,
    pub(crate) dominators: &'a Dominators,
    pub(crate) children: &'a Children,
    pub(crate) parts: &'a VariableParts,
    pub(crate) limits: TopLimits,
}

impl TopTree<'_> {
    /// Returns the object that the association of a variable holds, if nothing else holds it.
    pub(crate) fn held_value(&self, object: ObjectIndex) -> Option<ObjectIndex>
        ensures { result ≡ held_value self.now.dominators.now self.now.parts.now object }
    {
        let value = self.parts.value(object)?;
        match self.dominators.immediate(value) {
            Some(holder) if holder == object => Some(value),
            _ => None,
        }
    }

    /// Returns whether a child of a part of a row with this value is a part too.
    pub(crate) fn is_joined(&self, value: Option<ObjectIndex>, child: ObjectIndex) -> bool
        ensures { result ≡ is_joined self.now.parts.now value child }
    {
        let is_value = match value {
            Some(value) => value == child,
            None => false,
        };
        self.parts.is_holder(child) || is_value
    }

    /// Returns whether an object on a level has a row of its own.
    pub(crate) fn is_shown(&self, object: ObjectIndex) -> bool
        ensures { result ≡ is_shown self.now.dominators.now self.now.limits object }
    {
        self.limits.bytes <= self.dominators.retained(object).bytes
    }
}
