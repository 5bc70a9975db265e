//! A site kept in files on disks in memory. Where none fails it answers as a site in memory does, and what is opened
//! again shows what that shows. Else a disk fails after so many calls: at each call of the steps and reopenings of a
//! recall, and at each call of an opening and a closing. What is left is opened again, and is the record before the
//! step or the one after it.
//!
//! The contracts of `site_store` say so of every disk. What only a run can show stands here: that calls succeed, that
//! each call that fails is reported, that what is left can be opened, and that the recall then ends.
#![tactic(auto)]

#[cfg(test)]
mod answers;
#[cfg(test)]
mod disks;
#[cfg(test)]
mod openings;
#[cfg(test)]
mod refused;
#[cfg(test)]
mod sites;
#[cfg(test)]
mod steps;
#[cfg(test)]
mod stops;
#[cfg(test)]
mod weak;
