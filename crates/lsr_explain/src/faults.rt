//! What each fault of a configuration and of a recorded run means, and what else is told on the error stream.

/// Faults of a configuration: for each a heading, which is the fault as it is told after `config`, and after it what it
/// means, in lines that begin with spaces. `KEY` stands for the name of a key.
pub const CONFIG_FAULTS: &str = "\
Text
  The configuration's text isn't TOML, or has a whole number outside 64 bits.
  Where, and what is allowed there, stands after it.
  What to do: look at quotes, brackets, and keys that are given twice.
  See: docs/CONFIGURATION.md (Faults)
Missing KEY
  The configuration lacks a key that is needed.
  Where, and what is allowed there, stands after it.
  What to do: give that key a value.
  See: docs/CONFIGURATION.md (Faults)
BadValue KEY
  The key's value isn't of the kind that it takes, or out of its range; or a table that
  there may be many of has one pair of brackets, as `[link]`. Of a tunnel: its endpoint is this
  router, its route has more than 31 steps, a prefix's length is above 32, a priority is above 7,
  or its rate isn't eight hexadecimal digits, or is negative, no number, or 2^50 bytes per
  second or more. Of a bypass: its capacity is above the rate of its tunnel.
  Where, and what is allowed there, stands after it.
  What to do: write the value as docs/CONFIGURATION.md says; head such tables `[[link]]`.
  See: docs/CONFIGURATION.md (Faults)
Repeated KEY
  A number, an address or a prefix that may stand once stands there twice.
  Where, and what is allowed there, stands after it.
  What to do: give each a value of its own.
  See: docs/CONFIGURATION.md (Faults)
UnknownName KEY
  The key's value is the number of a link or of a tunnel, and the configuration has none of that
  number.
  Where, and what is allowed there, stands after it.
  What to do: add that link or tunnel, or name another.
  See: docs/CONFIGURATION.md (Faults)
TooMany KEY
  The table has more records than a router keeps: 16 links, 256 routes, 256 tunnels, 64
  bypasses.
  Where, and what is allowed there, stands after it.
  What to do: take records out of it.
  See: docs/CONFIGURATION.md (Faults)
UnknownKey KEY
  No configuration has a key of this name in this place.
  Where, and what is allowed there, stands after it.
  What to do: look at its spelling, and at the table that it stands in; or take it out.
  See: docs/CONFIGURATION.md (Faults)
Memory
  There wasn't memory enough to read the configuration; or, of `entry 0: Memory`, to check the
  recorded run, of which nothing is said then.
  What to do: free some memory and try again.
  See: docs/CONFIGURATION.md (Faults)
";

/// Faults of recorded runs: for each a heading, which is the fault as `lsr check` prints it after `entry N: `, and after it what
/// it means, in lines that begin with spaces.
pub const RUN_FAULTS: &str = "\
Format
  The bytes of the file are no journal file: it was cut or changed, its configuration isn't one, or
  it never was a recorded run. N is 0.
  What to do: copy the file again, or name another; `lsr config` alone reads configurations.
  See: docs/PROGRAM.md (`lsr check`: recorded runs)
Gap
  The file doesn't begin where the file before it ended: another router wrote it, or what the router
  knew at the end of that one isn't what it knows at the beginning of this one. N is 0.
  What to do: give all files of one run, in the order in which they were written.
  See: docs/PROGRAM.md (`lsr check`: recorded runs)
Base
  What the router knew before the first entry can't be: it breaks a clause of what always holds,
  whose name stands after that. N is 0.
  What to do: copy the file again; if it says the same, no router of this program wrote it.
  See: docs/ROUTER.md (What always holds)
Event
  The event of entry N can't be: its bytes, which stand after that, spell none; or the router
  refuses it without an entry, for what stands there, too. The entries before it are a run.
  What to do: copy the file again; if it says the same, no router of this program wrote it.
  See: docs/PROGRAM.md (`lsr check`: recorded runs)
Choice
  The labels of entry N may not be chosen: not each LSP that is new has one, or one of them isn't
  free. They stand after that, and some that may be. The entries before it are a run.
  What to do: copy the file again; if it says the same, no router of this program wrote it.
  See: docs/PROGRAM.md (`lsr check`: recorded runs)
Output
  The reply of entry N, or what it says was sent, isn't what the router answers and sends: what was
  found and what was expected stand after that. The entries before it are a run.
  What to do: copy the file again; if it says the same, no router of this program wrote it.
  See: docs/PROGRAM.md (`lsr check`: recorded runs)
";

/// What else is told on the error stream and ends a run: for each a heading, which is what is told, and after it what it
/// means, in lines that begin with spaces. `N` stands for a number.
pub const ENDINGS: &str = "\
bad line N
  Line N has none of the forms that `lsr step --help` tells, or of `lsr play` that `lsr play
  --help` does; or it isn't taken there: with --journal only `show recent` of the shows is, and at
  a console no rx, frame or tick. It stands after that, and the form of lines that begin as it
  does; and a blank too many, which isn't seen. It ended the run; what the lines before it asked
  for is done. With --live and at a console the run goes on.
  What to do: fix the line, and run the whole again; with --live or at a console, write it again.
  See: docs/PROGRAM.md (`lsr step`: echo, and what goes wrong)
unreadable
  The file or the input isn't there, is a folder, can't be opened or read, isn't UTF-8 where it
  has to be text, or has more than 16777216 bytes; which of them it is and why stands after that,
  and from which byte on it isn't UTF-8. Of `lsr decode -`: the input broke, is a folder, or a
  line has more than 16777216 bytes; the lines before that are answered, and so they are by
  `lsr step --live`.
  What to do: check its name, which counts from the folder where lsr runs, and its permissions;
  give text in UTF-8.
  See: docs/PROGRAM.md (`lsr step`: echo, and what goes wrong); docs/CONFIGURATION.md (Faults)
world FAULT
  The routers and wires of the file that `lsr play` was given make no world. Routers: there is no
  router, or there are more than 16. Joint I: wire I, counted from 1, names a link that its router
  doesn't have, or one that is joined already. Memory: there is no memory for the routers.
  What to do: give 1 to 16 routers; look at the numbers of that wire, and at the links of the
  routers' configurations.
  See: docs/PROGRAM.md (`lsr play`: a world of routers)
damaged
  The capture file breaks at the byte that stands after that, and is no capture file where that is
  byte 0. What `lsr decode` printed is all that stands before that byte.
  What to do: copy the file again, or let its capture end first; convert other files to pcap.
  See: docs/PROGRAM.md (`lsr decode`: capture files)
memory
  There is no memory. What was printed before is done.
  What to do: free some memory and try again.
  See: README.md (What is promised)
link L: socket
  Of `lsr serve`: link L can't have its socket. Another program, or another router of yours, has the
  address and port of its `listen`; or its `listen` or `send` isn't a loopback address of this
  machine, such as 127.0.0.1, or isn't of the family (IPv4 or IPv6) of the first link's. L is 0 for
  the socket from which the clock's port sends. Nothing was started.
  What to do: `ss -ulpn` lists the programs that have sockets, by their ports. End the other
  program, or write other ports into the configuration.
  See: docs/PROGRAM.md (`lsr serve`: a router over sockets)
segment N: not kept
  Of `lsr serve --journal`: there was no memory for file N of the journal. The files end with the
  one before it.
  What to do: free some memory and run it again under another PREFIX.
  See: docs/PROGRAM.md (`lsr serve`: a router over sockets)
mismatch PORT PLACE
  Of `lsr serve`: what its threads were told and the journal aren't one run of the router: they
  differ first at the PLACEth entry of the port PORT. Where both are 0, a segment of the journal
  doesn't go on from the one before, or the run isn't one of this configuration: a line of the log
  says which segment. It is a fault of this program or of the machine. At a console nothing is
  served from then on.
  What to do: end the program, keep the configuration and the journal's files, and report it.
  See: docs/PROGRAM.md (`lsr serve`: a router over sockets)
clock
  Of `lsr serve --console`: the system's clock, which the router goes by, can't be read.
  What to do: see that the system lets the program read its clock, and run it again.
  See: docs/PROGRAM.md (`lsr serve`: a router over sockets)
unwritable
  The output or the error stream can't be written: its reader has gone, or a disk is full. That
  ended the run. Or a file of --journal can't, and a line after it says which and why:
  its folder doesn't exist, permissions or the disk don't allow it, its name is that of a folder, a
  device, a pipe or a link, or a PREFIX.N or PREFIX.1.part of `lsr serve` is there already.
  What to do: look at where the output goes, or give the file another name, and run the whole again.
  See: docs/PROGRAM.md (`lsr step`: echo, and what goes wrong)
";
