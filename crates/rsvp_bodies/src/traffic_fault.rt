use thiserror::Error;

/// What is wrong with a traffic description: an error of code "Traffic Control Error" (RFC 2205, appendix B).
#[derive(Clone, Copy, Debug, PartialEq, Eq, Error)]
pub enum TrafficFault {
    /// A FLOWSPEC asks for another service than controlled load.
    #[error("the FLOWSPEC asks for a service other than controlled load")]
    ServiceUnsupported,
    /// A FLOWSPEC has a wrong shape, or a rate that is negative, 2^50 bytes per second or more, or no
    /// number.
    #[error("the FLOWSPEC has a wrong version, length, service length, parameter or token bucket rate")]
    BadFlowspec,
    /// A SENDER_TSPEC has a wrong shape, or a rate that is negative, 2^50 bytes per second or more, or
    /// no number.
    #[error("the SENDER_TSPEC has a wrong version, length, service, parameter or token bucket rate")]
    BadTspec,
}
