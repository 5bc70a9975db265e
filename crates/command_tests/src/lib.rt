//! What of scripts, commands and audits no run of the program shows: streams that fail, files in memory, and records
//! that no run leads to. What the program prints is compared by `tests/scripts.sh`.
#![tactic(auto)]

#[cfg(test)]
mod audits;
#[cfg(test)]
mod memory_files;
#[cfg(test)]
mod numbers;
#[cfg(test)]
mod rows;
#[cfg(test)]
mod scripts;
