//! What the objects of an image point to, which of them are reachable, and which have a defect.
#![tactic(auto)]

mod avoided;
mod classes;
mod complements;
mod contexts;
mod defects;
mod differences;
mod edge_slots;
mod faults;
mod finishing;
mod fixed;
mod greying;
pub mod laws;
mod live_objects;
mod lowest_defect;
mod marking;
mod marks;
mod methods;
mod object_graph;
mod out_edges;
mod shades;
mod slots;
mod strong_slots;
mod turns;
mod weak;

pub use classes::{class_of, compact_class};
pub use complements::complement;
pub use defects::{defect, lacks_nil};
pub use differences::difference;
pub use edge_slots::StrongSlots;
pub use faults::first_fault;
pub use finishing::finish;
pub use fixed::{fixed_by, is_weak};
pub use live_objects::Live;
pub use lowest_defect::first_defect;
pub use marking::{mark_plain, reachable, reachable_without};
pub use marks::Marks;
pub use object_graph::ObjectGraph;
pub use out_edges::{OutEdges, nil};
pub use shades::{Shade, Shades, first_shades};
pub use slots::{class_address, named_by, slot_word, target, traced, traced_fields};
pub use strong_slots::{strong, strong_fields};
pub use turns::blacken_listed;
pub use weak::Weak;
