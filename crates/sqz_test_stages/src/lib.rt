//! Tests of words, devices and the stages of a run over an image in memory, each called by itself.
#![tactic(auto)]

#[cfg(test)]
mod cuts;
#[cfg(test)]
mod devices;
#[cfg(test)]
mod equal_marks;
#[cfg(test)]
mod file_words;
#[cfg(test)]
mod gates;
#[cfg(test)]
mod images;
#[cfg(test)]
mod long_chain;
#[cfg(test)]
mod marking;
#[cfg(test)]
mod regions;
#[cfg(test)]
mod sliding;
#[cfg(test)]
mod sliding_gates;
#[cfg(test)]
mod sliding_memory;
#[cfg(test)]
mod stealing;
#[cfg(test)]
mod tracing;
#[cfg(test)]
mod words;
