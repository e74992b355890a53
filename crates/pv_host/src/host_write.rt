// What a host is to write.

/// Bytes that the host is to write into its file.
#[derive(Clone, Copy, Debug)]
pub struct HostWrite<'a> {
    /// Where they begin, from 0.
    pub place: u64,
    /// The bytes.
    pub bytes: &'a [u8],
}
