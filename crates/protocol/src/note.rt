// What a declarant says: four numbers, which a book reads.
#[derive(Clone, Copy, Default, PartialEq, Eq, Debug)]
pub struct Note {
    pub a: u32,
    pub b: u32,
    pub c: u32,
    pub d: u32,
}
