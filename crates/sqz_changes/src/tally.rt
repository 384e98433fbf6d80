//! Differences by their owners.

ghost use Rattle.std.specs.Prelude.{◌≡◌, ◌+◌, ◌<◌, ◌^◌, [], IfOk, OnOk, length};
ghost use Rattle.sqz_changes.specs.Changes.{with_difference};
ghost use Rattle.sqz_changes.specs.Tally.{IsTally, counted, row_of};

use crate::change::Change;
use crate::place::Difference;
use std::alloc::{AllocError, Global};

/// The changes so far, with the place of each owner's change among them.
#[derive(Drop)]
pub(crate) struct Tally {
    pub(crate) changes: Vec<Change>,
    pub(crate) rows: Vec<Option<u32>>,
}

impl Tally {
    /// Returns an empty tally for this number of owners.
    pub(crate) fn new(alloc: Global, owners: u32) -> Result<Self, AllocError>
        ensures tally { IfOk result (λ tally.
            IsTally owners tally.changes.items tally.rows.items) }
        ensures none { IfOk result (λ tally. tally.changes.items ≡ []) }
    {
        let changes = Vec::new(alloc);
        let rows = vec![in alloc; None; owners as usize]?;
        Ok(Tally { changes, rows })
    }

    /// Adds a difference to the change of its owner.
    pub(crate) fn add(&mut self, owner: u32, difference: Difference) -> Result<(), AllocError>
        requires owner { owner < length self.old.rows.items }
        requires tally { IsTally (length self.old.rows.items) self.old.changes.items
            self.old.rows.items }
        requires room { counted self.old.changes.items < 2 ^ 63 }
        ensures changes { OnOk result (self.new.changes.items
            ≡ with_difference owner difference self.old.changes.items) }
        ensures tally { OnOk result (IsTally (length self.old.rows.items) self.new.changes.items
            self.new.rows.items) }
        ensures counted { OnOk result (counted self.new.changes.items
            ≡ counted self.old.changes.items + 1) }
    {
        match self.rows[owner as usize] {
            Some(row) => {
                let change = self.changes[row as usize];
                self.changes[row as usize] = Change {
                    owner: change.owner,
                    first: change.first,
                    count: change.count + 1,
                };
                Ok(())
            }
            None => self.begin(owner, difference),
        }
    }

    /// Begins the change of an owner that has none, with its first difference.
    fn begin(&mut self, owner: u32, difference: Difference) -> Result<(), AllocError>
        requires owner { owner < length self.old.rows.items }
        requires tally { IsTally (length self.old.rows.items) self.old.changes.items
            self.old.rows.items }
        requires none { row_of self.old.rows.items owner ≡ None }
        ensures changes { OnOk result (self.new.changes.items
            ≡ with_difference owner difference self.old.changes.items) }
        ensures tally { OnOk result (IsTally (length self.old.rows.items) self.new.changes.items
            self.new.rows.items) }
        ensures counted { OnOk result (counted self.new.changes.items
            ≡ counted self.old.changes.items + 1) }
    {
        let row = self.changes.len() as u32;
        self.changes.push(Change {
            owner,
            first: difference,
            count: 1,
        })?;
        self.rows[owner as usize] = Some(row);
        Ok(())
    }
}
