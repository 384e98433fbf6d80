//! The object memories of [`crate::marking`], [`crate::moved_objects`], [`crate::questions`] and
//! [`crate::dominators`] that are those of images.

ghost use Rattle.std.specs.Prelude.{◌≡◌};
ghost use Rattle.sqz_test_examples.specs.Worked.{memory_of};
ghost use Rattle.sqz_test_examples.specs.DeadCycle.{dead_cycle};
ghost use Rattle.sqz_test_examples.specs.MovedCycle.{moved_cycle};
ghost use Rattle.sqz_test_examples.specs.ClassEdge.{class_edge};
ghost use Rattle.sqz_test_examples.specs.Shapes.{weak_fields};

use sqz_test_fixtures::TestImage;
use sqz_test_fixtures::accepted::{DEAD_CYCLE, DEAD_CYCLE_ANSWER};
use sqz_test_fixtures::with_classes::CLASS_EDGE;
use sqz_test_fixtures::with_weak_objects::WEAK_FIELDS;

/// The image with a dead cycle.
fn image_with_a_dead_cycle() -> TestImage
    ensures { memory_of result ≡ dead_cycle }
{
    DEAD_CYCLE
}

/// What it is compacted to.
fn image_with_the_moved_cycle() -> TestImage
    ensures { memory_of result ≡ moved_cycle }
{
    DEAD_CYCLE_ANSWER
}

/// The image with a class word.
fn image_with_a_class_word() -> TestImage
    ensures { memory_of result ≡ class_edge }
{
    CLASS_EDGE
}

/// The image with an object to which only a weak slot points.
fn image_with_a_weak_slot() -> TestImage
    ensures { memory_of result ≡ weak_fields }
{
    WEAK_FIELDS
}
