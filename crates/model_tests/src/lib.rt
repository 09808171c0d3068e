//! The lines of texts, and what is told of several models that are read line by line.
#![tactic(auto)]

#[cfg(test)]
mod lines;
#[cfg(test)]
mod texts;
#[cfg(test)]
mod verdicts;
