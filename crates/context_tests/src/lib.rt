//! Tests of contexts, through public calls: worked steps, calls in which an allocation fails, and the lines that
//! `docs/EMBEDDING.md` shows. The containers are linked from scripts. The expected values come from the rules of preparation and
//! their worked examples, never from the program. `cases/library` and `examples/c/readers.c` have many more steps.
#![tactic(auto)]

#[cfg(test)]
mod contexts;
#[cfg(test)]
mod loading;
#[cfg(test)]
mod refused;
#[cfg(test)]
mod reserved;
#[cfg(test)]
mod steps;
