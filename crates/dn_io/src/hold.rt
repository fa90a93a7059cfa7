/// What a worker calls at the places where a test may hold it.
pub trait Hold: Sync {
    /// The worker is at this place.
    fn reached(&self, place: u32);
}
