//! Tests of the answers about an image in memory: what is reachable without some objects, what
//! points to an object, which objects have a defect, and what objects dominate and retain.
#![tactic(auto)]

#[cfg(test)]
mod avoiding;
#[cfg(test)]
mod candidates;
#[cfg(test)]
mod children;
#[cfg(test)]
mod defects;
#[cfg(test)]
mod dominators;
#[cfg(test)]
mod images;
#[cfg(test)]
mod referrers;
