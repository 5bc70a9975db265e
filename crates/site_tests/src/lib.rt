//! What no run of the program reaches or shows: of a site's steps, of worlds of sites, of sites that are consistent
//! and of questions of recalls, by rows of what sites are given; of running sites, by turns of two of them, by runs
//! of four, by runs of up to sixteen in a random order of a seed, and by a desk that is spent; of frames as lines, of
//! the texts that name a lot and a unit, and of how often a transformation in parts is looked at, by examples whose
//! answers were written by hand.
//!
//! The tests stand in a crate of their own, so that what they test isn't proved again with them.
#![tactic(auto)]

#[cfg(test)]
mod fitting;
#[cfg(test)]
mod lines;
#[cfg(test)]
mod queries;
#[cfg(test)]
mod running;
#[cfg(test)]
mod seeded;
#[cfg(test)]
mod sites;
#[cfg(test)]
mod spellings;
#[cfg(test)]
mod steps;
#[cfg(test)]
mod tracing;
#[cfg(test)]
mod turns;
#[cfg(test)]
mod worlds;
