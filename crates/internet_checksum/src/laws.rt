//! Laws about the definitions that contracts cite. The functions do nothing: their contracts are the
//! laws.

ghost use Rattle.internet_checksum.specs.ChecksumLaws.{ChangesAreRefused, ChangesAreSeen, ChecksumsAreModular, ChecksumsCanBeSent, ChecksumsIgnoreTheirField, GoodMessagesSumToOnes, WrittenChecksumsAreGood};

/// The checksum, as a plain sum modulo ffff.
pub fn checksums_are_modular()
    ensures { ChecksumsAreModular }
{}

/// A checksum fits its field, is not the zero of a message without one, does not read the field, and is
/// good where it is written.
pub fn written_checksums_are_good()
    ensures sent { ChecksumsCanBeSent }
    ensures ignored { ChecksumsIgnoreTheirField }
    ensures good { WrittenChecksumsAreGood }
{}

/// The test of a receiver that sums the whole message (RFC 1071, 1) is the same.
pub fn good_messages_sum_to_ones()
    ensures { GoodMessagesSumToOnes }
{}

/// The change of any one byte outside of the field, and so of any one bit, changes the checksum, and a
/// good message that has a checksum is no longer good.
pub fn changed_bytes_are_found()
    ensures seen { ChangesAreSeen }
    ensures refused { ChangesAreRefused }
{}
