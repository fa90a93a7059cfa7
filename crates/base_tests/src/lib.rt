//! Tests of the lowest layers: bit strings, pads, sources and sinks. Most of what these do is proved of all inputs;
//! here are values from outside, calls that memory serves, and readers and writers that fail in mid-stream.
#![tactic(auto)]

#[cfg(test)]
mod bits;
#[cfg(test)]
mod edges;
#[cfg(test)]
mod pads;
#[cfg(test)]
mod whole;
