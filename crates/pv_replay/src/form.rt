// The forms in which polyvalues stand in bytes.

/// How a polyvalue stands in bytes.
#[derive(Clone, Copy, Debug)]
pub enum Form {
    /// Its tree.
    Tree,
    /// Its tree, which is a value alone.
    SureTree,
    /// Its cases, as in old spellings of records.
    Cases,
}
