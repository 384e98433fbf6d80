//! Where the live words of each region go.

ghost use Rattle.std.specs.Prelude.{◌≡◌, ◌+◌, ◌*◌, ◌^◌, ◌≤◌, sum, IfOk, IfErr};
ghost use Rattle.sqz_image.specs.declared.fault.Fault.TheVariants.{OutOfMemory};
ghost use Rattle.sqz_regions.specs.Bases.{AreBases};

use sqz_image::Fault;
use sqz_object::Address;
use std::alloc::Global;

/// Returns, for each region, the address at which its live words begin: `base` plus the bytes of
/// the live words of the regions before it. `sums` are the live words of each region. An address
/// may be 2^32. Fails only if out of memory.
pub fn bases(alloc: Global, base: Address, sums: &[u32]) -> Result<Vec<u64>, Fault>
    requires { base + 4 * sum sums.now ≤ 2 ^ 32 }
    ensures bases { IfOk result (λ bases. AreBases base sums.now bases.items) }
    ensures refused { IfErr result (λ fault. fault ≡ OutOfMemory) }
{
    let mut bases = Vec::with_capacity(alloc, sums.len())?;
    let mut address = u64::from(base);
    for words in sums {
        bases.push(address)?;
        address += 4 * u64::from(*words);
    }
    Ok(bases)
}
