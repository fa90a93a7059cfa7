//! The submission window of one thread: what it tells each client that submits, and when it closes by itself. Contracts see a window as
//! a `WindowState` and tie it, by `IsAfter`, to the list of the events that it has met; the answers are those of `dn_told` over that list,
//! and the closing tick is the one of `specs/Closing.antt`.
#![tactic(auto)]

mod closing;
mod window;

pub use dn_told::WindowTold;
pub use window::Window;

#[cfg(test)]
mod tests;
