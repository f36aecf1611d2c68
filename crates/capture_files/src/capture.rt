ghost use Rattle.std.specs.Prelude.{◌≡◌, ◌≤◌, ◌<◌, ◌+◌, ◌-◌, [], length, Some, IfErr, IfOk, IfSome, OnErr, OnOk, OnSome};

use crate::body::{Interface, Said};
use crate::fault::{CaptureFault, Damage};
use crate::format::{Format, read_next, read_opening};
use crate::packet::Packet;
use std::alloc::Global;

/// A reader of a capture file, classic pcap or pcapng: it gives the packets one after the other, and copies nothing.
#[derive(Drop)]
pub struct Capture<'a> {
    size: usize,
    rest: &'a [u8],
    packets: usize,
    format: Format,
    interfaces: Vec<Interface>,
    ghost counted: { packets + length rest.now ≤ size },
}

impl<'a> Capture<'a> {
    ghost use Rattle.capture_files.specs.Captures.{IsNext, IsOpened, Turns, known_of, packets_read, rest_of, size_of_file};
    ghost use Rattle.capture_files.specs.Files.{IsFault, opening_fault};

    /// A reader at the beginning of the file, or why it is no capture file. The fault is at byte 0: [`Damage::Short`] where
    /// the file has no room for its header, [`Damage::Magic`] where it begins as no capture file does, and
    /// [`Damage::Version`] where it is a classic pcap file of another major version than 2. Interfaces of a pcapng file are
    /// kept in memory of this allocator, 12 bytes each; a classic pcap file takes none.
    pub fn open(alloc: Global, file: &'a [u8]) -> Result<Capture<'a>, CaptureFault>
        ensures fault { IfErr result (λ fault. (fault.at ≡ 0) × (opening_fault file.now ≡ Some fault.damage)) }
        ensures opened { IfOk result (IsOpened file.now) }
    {
        let (format, rest) = match read_opening(file) {
            Ok(opening) => opening,
            Err(damage) => return Err(CaptureFault { at: 0, damage }),
        };
        Ok(Capture {
            size: file.len(),
            rest,
            packets: 0,
            format,
            interfaces: Vec::new(alloc),
        })
    }

    /// Reads one record or block: its packet, if it is one. Where it is damaged the reader stays.
    fn turn(&mut self) -> Result<Option<Packet<'a>>, Damage>
        requires { 0 < length (rest_of self.old) }
        ensures damage { IfErr result (IsFault (known_of self.old) (rest_of self.old)) }
        ensures kept { OnErr result (rest_of self.new ≡ rest_of self.old) }
        ensures said { IfOk result (Turns self.old self.new) }
        ensures number { IfOk result (λ found. IfSome found (λ packet. packet.number ≡ packets_read self.old + 1)) }
        ensures shorter { OnOk result (length (rest_of self.new) < length (rest_of self.old)) }
        ensures size { size_of_file self.new ≡ size_of_file self.old }
    {
        let number = self.packets + 1;
        let rest = self.rest;
        let (said, len) = match read_next(self.format, self.interfaces.as_slice(), number, rest) {
            Ok(read) => read,
            Err(damage) => return Err(damage),
        };
        let (_, after) = rest.split_at(len);
        match said {
            Said::Section(endian) => {
                self.interfaces.clear();
                self.format = Format::Blocks(endian);
                self.rest = after;
                Ok(None)
            }
            Said::Interface(interface) => {
                if self.interfaces.push(interface).is_err() {
                    return Err(Damage::Memory);
                }
                self.rest = after;
                Ok(None)
            }
            Said::Packet(packet) => {
                self.packets = number;
                self.rest = after;
                Ok(Some(packet))
            }
            Said::Other => {
                self.rest = after;
                Ok(None)
            }
        }
    }

    /// The next packet, or where the file breaks before it: after that there are no more. None at the end of the file.
    pub fn next_packet(&mut self) -> Option<Result<Packet<'a>, CaptureFault>>
        ensures next { IsNext self.old self.new result }
        ensures shorter { OnSome result (length (rest_of self.new) < length (rest_of self.old)) }
        ensures size { size_of_file self.new ≡ size_of_file self.old }
    {
        while !self.rest.is_empty() {
            match self.turn() {
                Ok(None) => {}
                Ok(Some(packet)) => return Some(Ok(packet)),
                Err(damage) => {
                    let at = self.size - self.rest.len();
                    self.rest = &[];
                    return Some(Err(CaptureFault { at, damage }));
                }
            }
        }
        None
    }
}
