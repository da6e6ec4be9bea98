//! Tests of the readers of files of the classic Mac OS, a file for each format. They go through public calls. The files are
//! made by hand from the tables of the formats, and the expected values come from these tables, never from the program.
#![tactic(auto)]

#[cfg(test)]
mod apple;
#[cfg(test)]
mod fixture;
#[cfg(test)]
mod fragments;
#[cfg(test)]
mod mac_binary;
#[cfg(test)]
mod members;
#[cfg(test)]
mod resources;
