//! The number of workers.

ghost use Rattle.std.specs.Prelude.{◌≡◌, ◌≤◌, ◌↔◌, IfOk, IfErr, IsOk};
ghost use Rattle.sqz_image.specs.declared.fault.Fault.TheVariants.{BadWorkers};

use sqz_image::Fault;
use std::marker::Model;

/// The greatest number of workers.
const MOST: u32 = 64;

/// The number of workers that share the work, from 1 to 64. Workers are numbered from 0. Contracts
/// see the number.
#[derive(Clone, Copy)]
pub struct Workers {
    number: u32,
}

impl Model for Workers {
    ghost use Rattle.std.specs.Prelude.{ℕ, ◌≤◌};

    ghost Value = { ℕ };

    ghost view = { λ workers. workers.number };

    ghost inverse = { λ number. record { number = number } };

    ghost invariant = { λ workers. (1 ≤ workers.number) × (workers.number ≤ 64) };
}

impl Workers {
    /// Returns `number` workers. Fails with `BadWorkers` unless `number` is from 1 to 64.
    pub fn new(number: u32) -> Result<Workers, Fault>
        ensures workers { IfOk result (λ workers. workers ≡ number) }
        ensures refused { IfErr result (λ fault. fault ≡ BadWorkers) }
        ensures exact { IsOk result ↔ ((1 ≤ number) × (number ≤ 64)) }
    {
        if number == 0 || number > MOST {
            return Err(Fault::BadWorkers);
        }
        Ok(Workers { number })
    }

    /// Returns the number of workers.
    pub fn number(self) -> u32
        ensures number { result ≡ self }
        ensures some { 1 ≤ result }
        ensures few { result ≤ 64 }
    {
        self.number
    }
}
