//! The names of refusals and of what ends the program, as operators see them.
ghost use Rattle.std.specs.Prelude.{◌≡◌};
ghost use Rattle.lsr_text.specs.Names.{name_of, name_of_drop};

use lsr_facts::Refusal;
use rsvp_contents::Dropped;

/// What is told where memory ran out.
pub const OUT_OF_MEMORY: &str = "memory";

/// The name of why a datagram was dropped unread.
fn drop_name(drop: Dropped) -> &'static str
    ensures { result.now ≡ name_of_drop drop }
{
    match drop {
        Dropped::Short => "Short",
        Dropped::Version => "Version",
        Dropped::LengthField => "LengthField",
        Dropped::Checksum => "Checksum",
        Dropped::ObjectLength => "ObjectLength",
        Dropped::MissingObject => "MissingObject",
        Dropped::KindUnsupported => "KindUnsupported",
        Dropped::Integrity => "Integrity",
        Dropped::TooLong => "TooLong",
        Dropped::NoMemory => "NoMemory",
    }
}

/// The refusal's name, which stands beside its number ([`Refusal::number`]).
pub fn refusal_name(refusal: Refusal) -> &'static str
    ensures { result.now ≡ name_of refusal }
{
    match refusal {
        Refusal::Unread(drop) => drop_name(drop),
        Refusal::NoMatch => "NoMatch",
        Refusal::NoMerge => "NoMerge",
        Refusal::LinkDown => "LinkDown",
        Refusal::HopLimit => "HopLimit",
        Refusal::NoLabel => "NoLabel",
        Refusal::UnknownTunnel => "UnknownTunnel",
        Refusal::TunnelExists => "TunnelExists",
        Refusal::BadRoute => "BadRoute",
        Refusal::ChangePending => "ChangePending",
        Refusal::UnknownLink => "UnknownLink",
        Refusal::BypassExists => "BypassExists",
        Refusal::BypassOnItsLink => "BypassOnItsLink",
        Refusal::Full => "Full",
        Refusal::InUse => "InUse",
        Refusal::Late => "Late",
        Refusal::BadMoment => "BadMoment",
        Refusal::BadCapacity => "BadCapacity",
        Refusal::NoMemory => "NoMemory",
        Refusal::JournalFull => "JournalFull",
        Refusal::IsCold => "IsCold",
        Refusal::WrongPort => "WrongPort",
        Refusal::NoFrame => "NoFrame",
        Refusal::NoRouter => "NoRouter",
    }
}
