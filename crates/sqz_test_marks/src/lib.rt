//! Tests of the mark table: its calls one by one, two threads that claim one object, and a marker
//! that is made of it.
#![tactic(auto)]

#[cfg(test)]
mod alone;
#[cfg(test)]
mod in_order;
#[cfg(test)]
mod passes;
#[cfg(test)]
mod steps;
#[cfg(test)]
mod targets;
