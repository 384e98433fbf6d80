//! Tests of public calls that run out of memory: each succeeds when it is made again. They are run
//! under a library that fails one allocation of the process; a call that runs out of memory prints
//! its name.
#![tactic(auto)]

#[cfg(test)]
mod again;
#[cfg(test)]
mod dead_cycle;
#[cfg(test)]
mod files;
#[cfg(test)]
mod reading;
#[cfg(test)]
mod rows;
#[cfg(test)]
mod runs;
#[cfg(test)]
mod stages;
#[cfg(test)]
mod tables;
