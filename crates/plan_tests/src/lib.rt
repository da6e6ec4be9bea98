//! Worked rows of plans, and how often a plan looks at the ends of runs. They go through public calls. The expected values come
//! from the definition of labels and from worked examples, never from the program. `cases/library/programs.py` and
//! `cases/commands/distances.py` have many more. `examples/checker/run` compares plans with a plain method, which tries each end of each
//! run, and with a search of all programs.
#![tactic(auto)]

#[cfg(test)]
mod looks;
#[cfg(test)]
mod plans;
#[cfg(test)]
mod worked;
