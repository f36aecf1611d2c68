ghost use Rattle.std.specs.Prelude.{◌≡◌, ◌≤◌, length};
ghost use Rattle.capture_files.specs.Numbers.{number_in};

use byteorder::{BigEndian, ByteOrder, LittleEndian};

/// The byte order of a file or a section: that of the machine which wrote it.
#[derive(Clone, Copy)]
pub enum Endian {
    /// The highest byte first.
    Big,
    /// The lowest byte first.
    Little,
}

impl Endian {
    /// The number in the first two bytes.
    pub(crate) fn read_u16(self, bytes: &[u8]) -> u16
        requires { 2 ≤ length bytes.now }
        ensures { result ≡ number_in self 2 bytes.now }
    {
        match self {
            Endian::Big => BigEndian::read_u16(bytes),
            Endian::Little => LittleEndian::read_u16(bytes),
        }
    }

    /// The number in the first four bytes.
    pub(crate) fn read_u32(self, bytes: &[u8]) -> u32
        requires { 4 ≤ length bytes.now }
        ensures { result ≡ number_in self 4 bytes.now }
    {
        match self {
            Endian::Big => BigEndian::read_u32(bytes),
            Endian::Little => LittleEndian::read_u32(bytes),
        }
    }
}
