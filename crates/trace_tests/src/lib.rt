//! Tests of verdicts on what the members of a dealt group sign.
#![tactic(auto)]

#[cfg(test)]
mod scene;
#[cfg(test)]
mod verdicts;
