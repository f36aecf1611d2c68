//! The numbers of the protocol, each with the place that assigns it.

/// The version of the message format, in the top 4 bits of word 1 (RFC 2210, 3.1 and 3.2.1).
pub const FORMAT_VERSION: u8 = 0;
/// The service number of a SENDER_TSPEC, "generic information" (RFC 2210, 3.1).
pub const GENERIC_SERVICE: u8 = 1;
/// The service number of controlled load (RFC 2210, 3.2.1; RFC 2211).
pub const CONTROLLED_LOAD: u8 = 5;
/// The parameter number of a token bucket, TOKEN_BUCKET_TSPEC (RFC 2215, 3.6).
pub const TOKEN_BUCKET: u8 = 127;

/// The length of the whole body, in words after word 1 (RFC 2210, 3.1 and 3.2.1).
pub const OVERALL_WORDS: u16 = 7;
/// The length of the service's data, in words after word 2 (RFC 2210, 3.1 and 3.2.1).
pub const SERVICE_WORDS: u16 = 6;
/// The length of the token bucket, in words after word 3 (RFC 2210, 3.1 and 3.2.1).
pub const TOKEN_BUCKET_WORDS: u16 = 5;

/// The length of a body, in bytes: three words of headers and five of the token bucket.
pub(crate) const BODY_LEN: usize = 32;
/// The least length of a body that names a service, in bytes: two words.
pub(crate) const LEN_WITH_SERVICE: usize = 8;

// Where the fields stand, in bytes from the body's first (RFC 2210, 3.1 and 3.2.1).

/// Byte of the version, in its top 4 bits.
pub(crate) const VERSION_AT: usize = 0;
/// How far the version stands above the lowest bit of its byte.
pub(crate) const VERSION_SHIFT: u32 = 4;
/// First byte of the overall length, 16 bits.
pub(crate) const OVERALL_WORDS_AT: usize = 2;
/// Byte of the service number.
pub(crate) const SERVICE_AT: usize = 4;
/// First byte of the length of the service's data, 16 bits.
pub(crate) const SERVICE_WORDS_AT: usize = 6;
/// Byte of the parameter number.
pub(crate) const PARAMETER_AT: usize = 8;
/// First byte of the parameter's length, 16 bits.
pub(crate) const PARAMETER_WORDS_AT: usize = 10;
/// First byte of the token bucket rate r, 32 bits.
pub(crate) const RATE_AT: usize = 12;
