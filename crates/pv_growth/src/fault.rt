// Why a text is no configuration.
use pv_script::LineCause;
use thiserror::Error;

/// Why a text is no configuration. The causes are tested in this order, but for want of memory, which may come at any place.
#[derive(Clone, Copy, Debug, PartialEq, Eq, Error)]
pub enum ConfigFault {
    /// It has more than [`MAX_INPUT`](pv_base::MAX_INPUT) bytes.
    #[error("the configuration is too long")]
    TooLong,
    /// This line is the first that is malformed, for this cause.
    #[error("line {line}: {cause}")]
    Malformed {
        /// The line, from 1.
        line: u32,
        /// The cause.
        cause: LineCause,
    },
    /// It has an event.
    #[error("the configuration has events")]
    HasEvents,
    /// There was no memory.
    #[error("no memory")]
    NoMemory,
}
