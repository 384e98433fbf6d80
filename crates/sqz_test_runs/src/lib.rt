//! Tests of whole runs over images in memory.
#![tactic(auto)]

#[cfg(test)]
mod censuses;
#[cfg(test)]
mod compacted;
#[cfg(test)]
mod defects;
#[cfg(test)]
mod devices;
#[cfg(test)]
mod extremes;
#[cfg(test)]
mod headers;
#[cfg(test)]
mod held;
#[cfg(test)]
mod object_sizes;
#[cfg(test)]
mod observers;
#[cfg(test)]
mod pausing_sources;
#[cfg(test)]
mod plans;
#[cfg(test)]
mod prefixes;
#[cfg(test)]
mod runs;
#[cfg(test)]
mod summaries;
#[cfg(test)]
mod truncated;
#[cfg(test)]
mod twice;
#[cfg(test)]
mod unreadable;
#[cfg(test)]
mod weak_censuses;
#[cfg(test)]
mod weak_faults;
#[cfg(test)]
mod weak_slots;
