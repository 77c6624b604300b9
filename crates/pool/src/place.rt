// A frame in the pool, with the mask of the stations that it waits for.
#[derive(Clone, Copy)]
pub struct Place<T> {
    pub frame: T,
    pub waits: u8,
}
