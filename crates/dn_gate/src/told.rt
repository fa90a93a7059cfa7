// What a submission is told.

/// What a submission is told.
#[derive(Drop)]
pub enum Told<T> {
    /// It claimed its client, and drew before the gate was closed. Place is the number of draws before.
    Included { place: u32 },
    /// It claimed its client, and found the gate closed. Seen is the control word as it was found: 2^32 and the number of draws
    /// before.
    Late { seen: u64, back: T },
    /// Its client was there before, or was claimed before.
    Repeat { back: T },
}
