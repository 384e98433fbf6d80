//! Which pairs own the others.

ghost use Rattle.std.specs.Prelude.{◌≡◌, ◌<◌, ◌^◌, IfOk, length};
ghost use Rattle.sqz_changes.specs.Owners.{first_owners};

use crate::leads::Step;
use std::alloc::{AllocError, Global};

/// Returns the owner of each pair, given their leads.
pub(crate) fn owners_of(alloc: Global, leads: &[Option<Step>]) -> Result<Vec<u32>, AllocError>
    requires { length leads.now < 2 ^ 32 }
    ensures { IfOk result (λ owners. owners.items ≡ first_owners leads.now (length leads.now)) }
{
    let mut owners = Vec::new(alloc);
    for index in 0..leads.len() as u32 {
        let owner = match leads[index as usize] {
            None => index,
            Some(step) => owners.get(step.pair as usize).copied().unwrap_or(index),
        };
        owners.push(owner)?;
    }
    Ok(owners)
}
