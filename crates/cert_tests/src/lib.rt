//! Worked rows of certificates and of their text. They go through public calls. The expected values come from the
//! definition of labels, from worked examples and from the format's documents, never from the program.
//! `cases/commands/certificates.py` has many more.
#![tactic(auto)]

#[cfg(test)]
mod checking;
#[cfg(test)]
mod printing;
#[cfg(test)]
mod reading;
#[cfg(test)]
mod texts;
