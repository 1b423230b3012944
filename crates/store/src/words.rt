// The words of an index, lent to be read.

// What each reader of an index is handed. A function that writes an index takes the three apart.
#[derive(Clone, Copy)]
pub struct Words<'a> {
    pub directory: &'a [u32],
    pub originals: &'a [u32],
    pub replicas: &'a [u32],
}
