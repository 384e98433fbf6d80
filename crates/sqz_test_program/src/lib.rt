//! Tests of the program: over files, with its command line and what it prints.
#![tactic(auto)]

#[cfg(test)]
mod command_lines;
#[cfg(test)]
mod failing_sinks;
#[cfg(test)]
mod fault_lines;
#[cfg(test)]
mod files;
#[cfg(test)]
mod images;
#[cfg(test)]
mod plans;
#[cfg(test)]
mod programs;
#[cfg(test)]
mod refused;
#[cfg(test)]
mod test_file;
#[cfg(test)]
mod test_files;
#[cfg(test)]
mod two_files;
