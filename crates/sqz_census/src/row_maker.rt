//! The rows of a histogram.

ghost use Rattle.std.specs.Prelude.{◌≡◌, length, map, All, IfOk};
ghost use Rattle.sqz_image.specs.Objects.{object_count};
ghost use Rattle.sqz_histogram.specs.Groups.{IsInside};
ghost use Rattle.sqz_census.specs.Rows.{shown, row_at};

use crate::row::Row;
use rayon::prelude::*;
use sqz_histogram::{Group, GroupTotal, class_name, compact_name};
use sqz_regions::Forward;
use sqz_trace::ObjectGraph;
use std::alloc::{AllocError, Global};
use std::thread::Threads;

/// What rows are made from: the objects, and the new address of each live one.
#[derive(Drop)]
pub(crate) struct RowMaker<'a> {
    pub graph: ObjectGraph<'a>,
    pub forward: &'a Forward,
    ghost one_each: { length forward.now ≡ object_count graph.heap.now },
}

impl RowMaker<'_> {
    /// Returns the row of each total. Several threads make the rows.
    pub fn rows_of(
        &self,
        rt: &(impl Threads + Sync),
        alloc: Global,
        totals: &[GroupTotal],
    ) -> Result<Vec<Row>, AllocError>
        requires { All (λ total.
            IsInside (object_count self.now.graph.heap.now) total.group) totals.now }
        ensures { IfOk result (λ rows. map shown rows.items
            ≡ map (row_at self.now.graph.heap.now self.now.graph.weak self.now.forward.now) totals.now) }
    {
        totals
            .par_iter()
            .map(
                |total: &GroupTotal| -> Result<Row, AllocError>
                    requires { IsInside (object_count self.now.graph.heap.now) total.now.group }
                    ensures { IfOk result (λ row. shown row
                        ≡ row_at self.entry.now.graph.heap.now self.entry.now.graph.weak
                        self.entry.now.forward.now total.now) }
                { self.row_of(alloc, *total) },
            )
            .collect::<Result<Vec<Row>, AllocError>>(rt, alloc)?
    }

    /// Returns the row of a total.
    fn row_of(&self, alloc: Global, total: GroupTotal) -> Result<Row, AllocError>
        requires { IsInside (object_count self.now.graph.heap.now) total.group }
        ensures { IfOk result (λ row.
            shown row ≡ row_at self.now.graph.heap.now self.now.graph.weak self.now.forward.now total) }
    {
        let (place, compact, name) = match total.group {
            Group::Class(class) => {
                let name = class_name(alloc, self.graph, class)?;
                (self.forward.place(class), 0, name)
            }
            Group::Compact(compact) => (None, compact, compact_name(alloc, compact)?),
        };
        Ok(Row {
            place,
            compact,
            name,
            count: total.count,
            bytes: total.bytes,
        })
    }
}
