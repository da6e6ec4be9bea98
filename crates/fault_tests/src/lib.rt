//! Tests of where refusals are, and of what `Display` writes for each: its name, and for a refusal of a script or
//! certificate also the line. The names are those of `docs/ERRORS.md`.
#![tactic(auto)]

#[cfg(test)]
mod names;
#[cfg(test)]
mod places;
