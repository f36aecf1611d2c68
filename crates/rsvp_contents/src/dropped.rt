ghost use Rattle.std.specs.Prelude.{◌≡◌};

use thiserror::Error;

/// Why a datagram was dropped unread, or that there was no memory to read it.
#[derive(Clone, Copy, Debug, PartialEq, Eq, Error)]
pub enum Dropped {
    /// 1: it has fewer bytes than a header.
    #[error("short: a message has at least 8 bytes")]
    Short,
    /// 2: it is of another version of RSVP than 1.
    #[error("version: only version 1 of RSVP is spoken here")]
    Version,
    /// 3: its length field doesn't count its bytes.
    #[error("length field: it doesn't count the message's bytes, so some were lost or added")]
    LengthField,
    /// 4: its checksum is wrong.
    #[error("checksum: it is wrong, so the message was damaged on its way")]
    Checksum,
    /// 5: an object's length is wrong.
    #[error("object length: an object's length is no multiple of 4, past the end or wrong for its class")]
    ObjectLength,
    /// 6: an object that its type needs is absent.
    #[error("missing object: an object that this type of message needs is absent")]
    MissingObject,
    /// 7: its type isn't read here.
    #[error("kind unsupported: messages of this type are not taken here")]
    KindUnsupported,
    /// 8: it has an INTEGRITY object.
    #[error("integrity: messages with an INTEGRITY object are not taken; turn it off at the neighbour")]
    Integrity,
    /// 9: it, or a part of it, is too long.
    #[error("too long: the message, its route, its record or what it passes on is above the limit")]
    TooLong,
    /// 40: there is no memory to read it. Nothing changed; it may be good.
    #[error("no memory: the message could not be read because memory ran out; its sender repeats it")]
    NoMemory,
}

impl Dropped {
    ghost use Rattle.rsvp_contents.specs.Dropping.{number_of};

    /// The refusal's number: 1 to 9 where the datagram was dropped unread, 40 where memory ran out.
    pub fn number(self) -> u8
        ensures { result ≡ number_of self }
    {
        match self {
            Dropped::Short => 1,
            Dropped::Version => 2,
            Dropped::LengthField => 3,
            Dropped::Checksum => 4,
            Dropped::ObjectLength => 5,
            Dropped::MissingObject => 6,
            Dropped::KindUnsupported => 7,
            Dropped::Integrity => 8,
            Dropped::TooLong => 9,
            Dropped::NoMemory => 40,
        }
    }
}
