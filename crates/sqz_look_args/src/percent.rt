//! Percentages.

ghost use Rattle.std.specs.Prelude.{◌≡◌, ◌≤◌, ◌<◌, ◌*◌, ◌^◌};
ghost use Rattle.sqz_look_args.specs.Percents.{least_bytes};

use std::str::FromStr;

/// The number of parts into which a percent is divided.
const PARTS: u32 = 1_000_000;

/// The maximum number of digits after the point of a percentage: `PARTS` is 10 to this power.
const DECIMALS: usize = 6;

/// A percentage from 0 to 100, in millionths of a percent.
#[derive(Clone, Copy)]
pub struct Percent {
    millionths: u32,
    ghost at_most: { millionths ≤ 100000000 },
}

/// A text is no percentage.
#[derive(Clone, Copy)]
pub struct BadPercent;

impl FromStr for Percent {
    type Err = BadPercent;

    /// Returns the percentage that digits spell, with at most six digits after a point: `5` or
    /// `0.2`. Fails for any other text, and for more than 100.
    fn from_str(text: &str) -> Result<Percent, BadPercent> {
        match millionths(text) {
            Some(millionths) if millionths <= 100 * PARTS => Ok(Percent { millionths }),
            _ => Err(BadPercent),
        }
    }
}

impl Percent {
    /// Returns a percentage with one digit after the point: this many tenths of a percent.
    pub const fn tenths(tenths: u32) -> Percent
        requires { tenths ≤ 1000 }
        ensures { result.millionths ≡ tenths * 100000 }
    {
        Percent {
            millionths: tenths * (PARTS / 10),
        }
    }

    /// Returns the least number of bytes that is at least this share of `live` bytes.
    pub fn bytes_of(self, live: u64) -> u64
        ensures { live < 2 ^ 37 → result ≡ least_bytes self.millionths live }
    {
        live.saturating_mul(u64::from(self.millionths))
            .div_ceil(100 * u64::from(PARTS))
    }
}

/// Returns the millionths of a percent that digits spell.
fn millionths(text: &str) -> Option<u32> {
    let (whole, decimals) = text.split_once(".").unwrap_or((text, "0"));
    if !is_number(whole) || !is_number(decimals) || decimals.len() > DECIMALS {
        return None;
    }
    let mut fraction = u32::from_str_radix(decimals, 10).ok()?;
    for _ in decimals.len()..DECIMALS {
        fraction = fraction.checked_mul(10)?;
    }
    let whole = u32::from_str_radix(whole, 10).ok()?.checked_mul(PARTS)?;
    whole.checked_add(fraction)
}

/// Returns whether a text is one or more decimal digits.
fn is_number(text: &str) -> bool {
    !text.is_empty() && text.bytes().all(|byte| byte.is_ascii_digit())
}
