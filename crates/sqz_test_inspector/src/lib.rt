//! Tests of what the inspector reads of methods and classes, and of damaged data words.
#![tactic(auto)]

#[cfg(test)]
mod code;
#[cfg(test)]
mod damage;
#[cfg(test)]
mod dangling;
#[cfg(test)]
mod images;
#[cfg(test)]
mod methods;
#[cfg(test)]
mod strict;
