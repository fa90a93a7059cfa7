//! An arena of nodes, each of which holds one message in flight and links it to its neighbours.
//!
//! `Nodes` is seen as the list of its nodes; their number stays. A link is the place of another node, from 0, and 65,536
//! stands for none. Reading a node and writing one are each exactly one step of the `Steps` that the call is lent, which is
//! seen as the number of steps so far and costs nothing.
#![tactic(auto)]

mod node;
mod nodes;
mod steps;
#[cfg(test)]
mod tests;

pub use node::{NONE, Node};
pub use nodes::Nodes;
pub use steps::Steps;
