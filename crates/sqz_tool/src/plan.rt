//! How a run does its work.

ghost use Rattle.std.specs.Prelude.{◌≡◌, ◌⊎◌, IfOk, IfErr};
ghost use Rattle.sqz_image.specs.declared.fault.Fault.TheVariants.{BadWorkers, BadCut};
ghost use Rattle.sqz_regions.specs.Regions.{Every};
ghost use Rattle.sqz_tool.specs.Plans.{IsWorkers, IsRegion};
ghost use Rattle.sqz_trace.specs.WeakSlots.{weak_of};

use sqz_compact_args::Arguments;
use sqz_image::Fault;
use sqz_marks::Workers;
use sqz_regions::Cut;
use sqz_trace::Weak;

/// How a run does its work: its workers and regions, the policy on weak slots, and whether it
/// makes a census. The image that is written, and the census, depend only on the policy on weak
/// slots.
#[derive(Drop)]
pub struct Plan {
    /// The workers that share the work.
    pub workers: Workers,
    /// Where the data words are cut into regions.
    pub cut: Cut,
    /// The policy on weak slots.
    pub weak: Weak,
    /// Whether a census is made.
    pub census: bool,
}

impl Plan {
    /// Returns the plan that a command line asks for. Fails with `BadWorkers` unless the number of
    /// workers is from 1 to 64, else with `BadCut` unless the words of a region are from 1 to
    /// 2^30.
    pub(crate) fn of(arguments: &Arguments<'_>) -> Result<Plan, Fault>
        ensures weak { IfOk result (λ plan. plan.weak ≡ weak_of arguments.now.clear_weak) }
        ensures census { IfOk result (λ plan. plan.census ≡ arguments.now.census) }
        ensures workers { IfOk result (λ plan. plan.workers ≡ arguments.now.workers) }
        ensures cut { IfOk result (λ plan. plan.cut ≡ Every arguments.now.region_words) }
        ensures taken { IfOk result (λ _.
            IsWorkers arguments.now.workers × IsRegion arguments.now.region_words) }
        ensures refused { IfErr result (λ fault.
            ((fault ≡ BadWorkers) × (IsWorkers arguments.now.workers → ⊥))
            ⊎ ((fault ≡ BadCut) × IsWorkers arguments.now.workers
            × (IsRegion arguments.now.region_words → ⊥))) }
    {
        Ok(Plan {
            workers: Workers::new(arguments.workers)?,
            cut: Cut::every(arguments.region_words)?,
            weak: Weak::clear_if(arguments.clear_weak),
            census: arguments.census,
        })
    }
}
