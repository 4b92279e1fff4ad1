/// A pair of a book: a key and its ticket, the number that a haulier's passage goes by.
#[derive(Clone, Copy)]
pub struct Entry<K> {
    pub key: K,
    pub ticket: u32,
}
