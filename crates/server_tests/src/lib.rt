//! Tests of servers, called by hand.
#![tactic(auto)]

#[cfg(test)]
mod alone;
#[cfg(test)]
mod openings;
#[cfg(test)]
mod rounds;
#[cfg(test)]
mod statements;
