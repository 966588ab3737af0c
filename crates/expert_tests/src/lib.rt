//! Whole runs of the program where a call outside fails, or where the script is longer than a
//! command line holds. All other whole runs are the files of tests/, which the built program is run
//! on.
#![tactic(auto)]

#[cfg(test)]
mod tests;
