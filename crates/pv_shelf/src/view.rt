// What readers and the writer know of a shelf. No value of it is made at run time.
use crate::part::ShelfPart;
use std::collections::LinkedList;

/// What a reader or the writer has seen of a shelf: the list that its last look found, and how often it has looked.
pub struct View {
    pub seen: LinkedList<ShelfPart>,
    pub looks: u64,
}
