use thiserror::Error;

/// Why an engine didn't carry out a call.
#[derive(Clone, Copy, Debug, PartialEq, Eq, Error)]
pub enum EngineFault {
    /// The device answered an error.
    #[error("the device failed")]
    Device,
    /// The call is about bytes that the engine doesn't have.
    #[error("outside the engine's files")]
    Outside,
}
