/// Whose key it is that a line of the header gives.
#[derive(Clone, Copy)]
pub enum KeyOf {
    Client,
    Server,
    Slot,
}
