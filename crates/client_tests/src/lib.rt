//! Tests of clients on certificates and challenges that dealt servers sign. No part of the product.
#![tactic(auto)]

#[cfg(test)]
mod asking;
#[cfg(test)]
mod pads;
#[cfg(test)]
mod rows;
#[cfg(test)]
mod scene;
