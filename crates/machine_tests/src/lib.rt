//! Worked rows of relocation and of placed memory, a file for each library. They go through public calls. The expected values
//! come from the format's documents and worked examples, never from the program. Only `place_against_a_scan` computes its
//! addresses, by a scan that follows the rule of placement. `conformance` and `cases/library` try most programs and
//! preparations.
#![tactic(auto)]

#[cfg(test)]
mod memory;
#[cfg(test)]
mod reloc;
