//! What a submission window tells the clients that submit. `specs/Window.antt` has the one definition of a window's answers, over one
//! list of events, which the window of a single thread and the one that threads share both keep.
#![tactic(auto)]

mod laws;
mod told;

pub use laws::{each_is_told_once, those_before_are_there};
pub use told::WindowTold;
