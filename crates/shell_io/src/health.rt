//! The health of a device.

/// Whether a device has failed.
#[derive(Clone, Copy, Debug, PartialEq, Eq)]
pub enum Health {
    /// No call has failed.
    Fine,
    /// A call has failed, and none was made since.
    Failed,
    /// A call was made after one had failed.
    TriedAgain,
}
