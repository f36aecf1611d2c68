//! What the help of `lsr` says.

/// What stands after the program's name in `lsr --version`: the number, and what is proved.
pub(crate) const VERSION: &str = "\
0.1.0
  Proved with rattle-kit-13f, logic dac8208d650f15bf (`rt version`): each function meets its
  contract, is safe and ends; README.md (What is promised) says what that covers.
  That is said of the sources: `./lsr --prove` proves them and builds the program from them,
  and a program that `./lsr` built without it checks itself as it runs";

pub(crate) const ABOUT: &str =
    "An RSVP-TE control plane for MPLS: run it, inspect it, check what it did.";

pub(crate) const HELP: &str = "\
More help:
  lsr step --help     the lines that a router takes, and what it prints for them
  lsr config --help   a router's configuration, checked and printed whole
  lsr decode --help   what messages are made of
  lsr explain --help  what a refusal, an error or a fault means, and what to do about it
  lsr serve --help    a router over sockets; with --console it takes an operator's lines
  lsr play --help     many routers, joined by wires that lose, repeat and reorder
  lsr check --help    whether recorded runs are what such a router does
  lsr show-journal --help
                      a recorded run, entry by entry
  lsr --version       the version, and what is proved

Example: the router refuses to tear down a path that it doesn't know.
  echo rx 1 1005b988ff000030001001070a000004000000010a000001000c03010a00000100000001\
000c0b070a00000100000001 | lsr step

Exit status of every command:
  0                   what was asked for is done, or help was. A line of `step` or a move of
                      `play` that the router refuses, or says is an error, is answered: that
                      is 0, too, but for `refused 41 JournalFull` of --journal
  1                   a file, the input, a line of `step` or `play` or a message to decode wasn't
                      taken; routers and wires make no world; a capture is damaged; a socket
                      can't be opened, or what `serve` was told isn't one run; a recorded run that
                      `check` is given isn't one; the output can't be written; or memory ran out
  2                   the words after `lsr` aren't taken, and nothing was done: too few, too
                      many or unknown ones, HEX that isn't hexadecimal digits, WHAT that names
                      nothing, N that isn't a number of turns, LEVEL that is none, or words
                      that don't go together: --journal and --live, --turns and --console,
                      --echo, --mark or --log of `serve` without --console
What went wrong stands on standard error. Among the answers stand `mismatch` of serve, `entry N:
FAULT` of check, `refused 41 JournalFull` of step --journal, and what `decode` says of lines or a
file. The first line says what it is; lines after it that begin with two spaces say where it is and
what to do. `lsr explain` takes the first line as it is: `lsr explain config BadValue limit`. Two
kinds of lines it doesn't know: `error: ..` is about the words after `lsr`, and `byte N: ..` says at
which byte a journal file breaks.
";

pub(crate) const STEP_ABOUT: &str = "\
Serves messages, frames, the clock, links that come up and go down, commands and restarts, a
line each from standard input, and prints what the router answers and sends";

pub(crate) const STEP_HELP: &str = "\
Standard input is read to its end, at most 16777216 bytes, before its first line is answered; with
--live each line is answered as soon as it has come. A newline at the very end begins no further
line. Each line is one of these:
  rx LINK HEX       a message came over link LINK, 1 to 65535; HEX is its bytes in
                    hexadecimal digits of either case, two for each, and may be empty
  frame LINK HEX    a whole frame came over link LINK: its first byte is 01 before a message,
                    02 before a payload under labels, 03 before the address of the router that a
                    message is for, its limit, which each router lowers, and the message
  tick N            the clock is at N milliseconds, 0 to 18446744073709551615; the router is
                    opened at 0, and refuses N above 4611686018427387904
  up LINK           link LINK came up
  down LINK         link LINK went down
  restart           the router lost what messages had set up in it, and is stopped until `start`
  start             a stopped router is started; a running one goes on as it is. The router is
                    opened running
  tunnel N ENDPOINT RATE SETUP HOLD FLAGS NAME [ROUTE..]
                    sets up tunnel N, 0 to 65535, from here to the address ENDPOINT.
                    RATE is the rate of its traffic in bytes per second, as the eight
                    hexadecimal digits of an IEEE 754 word: 47f42400 is 125000. SETUP and HOLD
                    are its priorities, 0 (best) to 7; FLAGS are two hexadecimal digits: 01
                    asks for protection, 02 for recorded labels, 04 for shared reservations;
                    with 01, 08 asks for protected bandwidth, and 10 for a protected next
                    router; NAME has 1 to 255 bytes. Each ROUTE is a step of its route from here
                    on, as 10.0.0.3/32, or ~10.0.0.3/32 where it is loose
  change N RATE [ROUTE..]
                    moves tunnel N to this rate and route: its new LSP is set up beside the old
                    one, and takes its place once it is reserved
  cancel N          the change of tunnel N is given up
  drop N            removes tunnel N; refused while a bypass runs in it
  bypass N TUNNEL LINK [CAPACITY]
                    protects link LINK by bypass N, 0 to 65535: it runs in tunnel TUNNEL, which
                    begins here and has to leave by another link. When LINK goes down, LSPs over it
                    that want protection go on over the bypass. CAPACITY is its bandwidth for them,
                    in bytes per second, at most the tunnel's rate: LSPs that ask for bandwidth
                    protection are promised some of it, and no others go over it. Without it, or
                    with 0, the bypass takes the LSPs that are promised nothing
  unbypass N        removes bypass N; refused while LSPs are repaired over it
  route PREFIX LINK sends what goes to PREFIX, as 10.9.0.0/16, over link LINK
  unroute PREFIX    removes the static route to PREFIX
  show paths        asks for the paths that the router knows
  show resvs        asks for the reservations that stand
  show table        asks for the label table
  show labels       asks which labels LSPs hold, which rest, and how many are free
  show links        asks for the links, and for what is reserved on them
  show tunnels      asks for the tunnels that begin here
  show bypasses     asks for the bypasses of the links
  show recent       asks for the last 32 replies
  show summary      asks how much there is of everything, and how much there may be
  show config       asks for the configuration, with what commands changed of it
  show lsps         asks how each LSP stands, and each tunnel that begins here and has no path
  show path KEY     asks for all that is known of the path of one LSP, whose KEY `show paths` has
  show resv KEY     asks for all that is known of its reservation, or of the repaired one
  show lsp KEY      asks how that LSP stands, why it isn't up, and what protects it
  show lsp N        asks the same of the LSPs of tunnel N
Words are separated by exactly one space, and nothing else stands in a line: no sign, no blank
before or after them, no carriage return. Numbers are decimal; zeros may stand before them. An empty
line is a bad line.

With --echo each line is printed before its answers, and empty lines and lines that begin with #
are passed over: they are counted and do nothing.

With --live, for an operator who writes lines at a terminal, each line is answered as soon as it
has come, however many come. A bad line is told on standard error as soon as it has come, and the
run goes on with the next; empty lines and lines that begin with # are passed over. A line has at
most 16777216 bytes. `./lsr step` adds --live where standard input is a terminal.

With --journal the run is recorded in FILE: the configuration, and each event with its labels, its
reply and what was sent. Keep FILE: `lsr check FILE` says later, anywhere, whether that is what
such a router does, and `lsr show-journal FILE` prints it. Of the `show` lines only `show recent`
is taken then. It isn't taken beside --live.

What is printed for each of them but `show`:
  done              it was done
  error CODE VALUE  it is an error of RSVP, which its sender is told
  refused N NAME    it was refused for the reason of this number and name, and nothing
                    changed: the run goes on with the next line
  tx LINK HEX       after that, each message that the router sends to a neighbour
  frame LINK HEX    and each other frame, whole: a message for another router goes on

What is printed for a labelled frame, in place of these:
  frame LINK HEX    it goes on over link LINK, as this frame
  deliver HEX       its labels end here; HEX is its payload
  refused N NAME    it was dropped

If a line is refused:
  refused 1 to 9           the message can't be read: `lsr decode HEX` tells the same of `rx`,
                           and of `frame` with what stands after its first byte, 01
  refused 10 NoMatch       `show paths` and `show resvs` have what a message can speak of
  refused 11 NoMerge       no path here joins a path that came over a bypass: `show paths` has them
  refused 12 LinkDown      `up LINK` first
  refused 13 HopLimit      the frame's TTL or limit ran out: look for a loop
  refused 14 NoLabel       `show table` has the labels that frames may come under
  refused 20 to 23, 27     `show tunnels` has the tunnels; `lsr explain N` says what is wrong
  refused 24 UnknownLink   name a link of the configuration: `show links` has them
  refused 25, 26, 28       `show bypasses` has the bypasses; `lsr explain N` says what is wrong
  refused 29 Late          a time before the last one: go on from that
  refused 30 BadMoment     a time above 4611686018427387904 (2^62) milliseconds
  refused 31 BadCapacity   more than the tunnel carries: `show bypasses` has the capacities
  refused 40 NoMemory      there was no memory, and nothing changed: try again
  refused 41 JournalFull   the file of --journal has 4096 entries, and is written: go on without it
  refused 42 IsCold        the router was restarted and is stopped: `start` it first
`lsr explain` says more of each: give it the line, as `lsr explain refused 24 UnknownLink`, or a
number, a name, or CODE/VALUE, as 24/5 for `error 24 5`.

What is printed for `show recent`, the oldest reply first: `done`, `error CODE VALUE` or
`refused N NAME`, without what was sent. A frame that went on or was delivered has no reply.

What is printed for the others, a line for each row, in order; KEY is
ENDPOINT/TUNNEL/EXTENDED SENDER/LSP, the session, sender and LSP ID of an LSP:
  path KEY transit|tail|head OUT ORIGINS
                    what the router is on its way; the link that it leaves by, 0 for a tail;
                    how many origins it has, 0 for a head
  resv KEY LINK ff|se RATE LABEL
                    the link that it is on; whether it is fixed or shared; its rate, as the
                    hexadecimal digits of its word; the label that the next hop gave
  LABEL swap L LINK
  LABEL swappush INNER OUTER LINK
  LABEL pop         what is done with a frame that comes with LABEL: it is sent over LINK with
                    label L, or through a bypass with OUTER above INNER; or the label is taken
                    away, and its LSP ends here
  tunnel N push L LINK
  tunnel N push INNER OUTER LINK
                    traffic of tunnel N is sent over LINK with label L, or through a bypass with
                    OUTER above INNER
  link N up|down LIMIT R0 .. R7
                    how much of it may be reserved, and what is reserved at each priority, 0
                    (best) to 7, in bytes per second
  tunnel N current C pending P error CODE VALUE
                    the LSP ID of the LSP that carries its traffic once it is reserved; that of
                    the one which is to take its place, or `none`; the last error that came
                    for one of them, or `error none`
  bypass N TUNNEL LINK up|down USES CAPACITY SUM
                    the tunnel that it runs in; the link that it protects; whether its tunnel has
                    a label to send under; how many LSPs are repaired over it; its capacity, and
                    how much of that LSPs are promised, in bytes per second
  held LABEL KEY    a label and the LSP that holds it, in the order of the LSPs
  resting LABEL until TIME left N ms
                    a label that no LSP is given before that time of the router's clock, N
                    milliseconds from now
  free COUNT of COUNT
                    how many labels are neither held nor rest, of all that the router gives out
  lsp KEY ROLE STATE rate N bit/s N bytes/s name \"NAME\"
                    ROLE is transit, tail or head; STATE is `up`, `signalling` (no Resv was granted
                    yet), `down`, `repaired over bypass N`, or `pending`, of the new LSP of a tunnel
                    that is being changed; then the rate that is reserved, or else asked for, or
                    `rate none`; and the name, or `name none`

`show path KEY`, `show resv KEY`, `show lsp KEY`, `show lsp N` and `show summary` print one thing in
each line, in words that docs/PROGRAM.md explains. Nothing is printed of an LSP that isn't there.
`show config` prints the configuration as `lsr config` does.

The router is the one that FILE says (docs/CONFIGURATION.md has the keys; begin with a copy
of examples/middle.toml), or without it the built-in one: 10.0.0.2, link 1 to 10.0.0.1, link
2 to 10.0.0.3, and 10.0.0.4 beyond link 2. FILE is read whole before the first line.

The status is 0 where each line was answered, whatever the answers are but `refused 41
JournalFull`, which ends a run with --journal; 1 then, or with one of these on standard error, or
with --live with some of them; 2 where the words of the command aren't taken:
  bad line N        line N, counted from 1, has none of the forms above, and ends the run;
                    what the lines before it asked for is done. The line and the form of its
                    first word follow. Fix it, and run the whole again; with --live the run
                    goes on: write the line again
  config FAULT KEY  the first fault of FILE, and the key that it is about (none for Text
                    and Memory); fix that, and run again for the next. docs/CONFIGURATION.md says
                    what each FAULT is
  unreadable        FILE or the input can't be opened or read, isn't UTF-8, or has more than
                    16777216 bytes; the line after it says which of them it is, and why
  memory            there is no memory; what was printed before is done
  unwritable        the output or the error stream can't be written, or the file of --journal, and
                    then the line after it says why

Example: a tear of a path that isn't there prints `refused 10 NoMatch`.
  echo rx 1 1005b988ff000030001001070a000004000000010a000001000c03010a00000100000001\
000c0b070a00000100000001 | lsr step
";

pub(crate) const CONFIG_ABOUT: &str = "\
Checks a router's configuration, and prints it as the router understands it";

pub(crate) const CONFIG_HELP: &str = "\
What is printed is the whole configuration, as TOML: it can be given to `lsr step --config` and
`lsr serve` in place of FILE, and is the same router. Use it to check a file before it is used, to
see what was left out, to bring a file into order, or to begin one: without FILE it is the built-in
router's.
  - what FILE leaves out stands there: refresh_ms = 30000, label_rest_ms = 0, up = true of a link,
    and capacity = 0 of a bypass
  - bits of a route's prefix past its length are 0; numbers are decimal, as flags = 4 for 0x04
  - the tables stand in the order link, route, tunnel, bypass; links, tunnels and bypasses by their
    numbers, routes by their prefixes; keys in the order of docs/CONFIGURATION.md
  - listen and send stand there where each link has both, as `lsr serve` needs them
  - comments go
What is printed for that is the same again, byte for byte. Standard input isn't read.

The status is 0; 1 with nothing printed and one of these on standard error; 2 where the words of
the command aren't taken:
  config FAULT KEY  the first fault of FILE, and the key that it is about (none for Text
                    and Memory), as `lsr step --config FILE` tells it. docs/CONFIGURATION.md says
                    what each FAULT is, and `lsr explain FAULT` what to do
  unreadable        FILE can't be opened or read, isn't UTF-8, or has more than 16777216 bytes;
                    the line after it says which
  memory            there is no memory
  unwritable        the output or the error stream can't be written

Example: a configuration of your own begins with the built-in one.
  lsr config > own.toml

Example: what two files differ in as routers.
  lsr config one.toml > one; lsr config other.toml > other; diff one other
";

pub(crate) const DECODE_ABOUT: &str =
    "Prints the objects of one message, of each message of many lines, or of a capture file";

pub(crate) const DECODE_HELP: &str = "\
HEX is one word, the bytes of one message in hexadecimal digits of either case, two for each,
with no blanks; or it is `-`, which reads standard input to its end; or a word with `.` or `/` in
it, which is the name of a capture file.

What is printed:
  KIND LENGTH       the message's type (Path, Resv, PathErr, ResvErr, PathTear or ResvTear)
                    and the number of its bytes, 8 to 4096
  CLASS CTYPE BODY  a line for each object, in the order of the bytes: its class and
                    C-Type in decimal, 0 to 255, and its body in hexadecimal digits, if it
                    has any. The last three bytes of an ERROR_SPEC, `6 1 0a00000200180007`,
                    are code and value of the error, here 24/7
With --fields these lines follow that line, for each object:
    CLASS FIELD ..  two spaces, its class by name, and each field after its name. A rate is
                    the digits of its word and what it stands for, in whole bytes per second,
                    rounded up: `infinite`, or `none` where it is negative, no number, or 2^50
                    or more. Flags are their byte and the names of those that are set
      SUBOBJECT ..  of a route, for each subobject: four spaces, and what it says

A message that can't be read prints `refused N NAME` on standard error, status 1: what is
wrong with it first. A router answers the same to `rx LINK HEX` (lsr step --help), and
`lsr explain N` says what to do about it.
  1 Short              fewer than 8 bytes; no bytes at all, too
  2 Version            its version isn't 1
  3 LengthField        its length field isn't the number of its bytes
  4 Checksum           its checksum field is neither 0 nor right
  5 ObjectLength       an object's length is wrong
  6 MissingObject      an object that its type needs isn't there, or flow descriptors are
                       out of order
  7 KindUnsupported    its type is none of these six
  8 Integrity          it has an INTEGRITY object
  9 TooLong            it has more than 4096 bytes, or a route, a record or passing objects
                       above the limit
  40 NoMemory          there is no memory to read it

With `-` for HEX the messages are the lines of standard input, each the digits of one, as many
as come, until the input ends; a line has at most 16777216 bytes. An empty line is a message of
no bytes; a newline at the very end begins no further line, and the last line needs none. Each
line has its answer on standard output at once, and an empty line after it: what is printed
above, or for a line that is refused, which doesn't end the run:
  line N: refused M NAME
  line N: not hexadecimal digits
  line N: an odd number of hexadecimal digits
N counts lines from 1.

A file is a classic pcap or a pcapng file of at most 16777216 bytes. Messages are what IPv4
packets of protocol 46 carry, and UDP datagrams whose payload is a Hop frame of this router: a
byte 01, and after it a message of version 1. Packets are looked for in Ethernet, with or without
tags, in raw IP, and in Linux's cooked packets. Each message is printed so, with an empty line
after it:
  packet N TIME     the packet's number in the file, from 1, and when it was captured, in
                    seconds since the beginning of 1970 with nine decimals, or `unknown`;
                    after it what is printed above, or `refused M NAME`
and then, in the end:
  messages A        how many packets have a message; and how many have none that is read:
  fragments B       fragments of packets of protocol 46 or 17, which aren't put together,
  cut C             such packets of which not all bytes were captured,
  others D          and all others

The status of HEX is 0; 1 where the message is refused; 2 where it isn't an even number of
hexadecimal digits. That of `-` is 0; 1 where a line was refused or is no hexadecimal digits;
and 1 where the run ends before the last line. That of a file is 0; 1 where a message was
refused, or the file can't be read to its end. Then one of these stands on standard error:
  unreadable        the input broke, or a line has more than 16777216 bytes; or the file can't
                    be opened or read, or has more than 16777216 bytes
  damaged           the file breaks at the byte of the line after it; what stands before
                    that place is printed
  memory            there is no memory
  unwritable        the output or the error stream can't be written

Example: this PathTear prints `PathTear 48`, `1 7 0a000004000000010a000001`,
`3 1 0a00000100000001` and `11 7 0a00000100000001`.
  lsr decode 1005b988ff000030001001070a000004000000010a000001000c03010a0000010000000\
1000c0b070a00000100000001

Example: what is wrong with the path of a tunnel; it prints `ERROR_SPEC node 10.0.0.2 flags 00
error 24/7 RoutingLoop` in a line.
  lsr decode 1003cc89ff000054001001070a000004000000010a000001000c06010a0000020018000\
7000c0b070a0000010000000100240c0200000007010000067f00000547f4240047f424007f80000000000\
040000005dc --fields

Example: the messages that a router sent, decoded.
  lsr step < lines | sed -n 's/^tx [0-9]* //p' | lsr decode -

Example: the messages of a capture.
  lsr decode examples/first-path.pcap
";

pub(crate) const EXPLAIN_ABOUT: &str = "\
Says what a refusal, an error or a fault means, what to do about it, and where its rule stands";

pub(crate) const EXPLAIN_HELP: &str = "\
WHAT is the line that was told, whole or a part of it, as one word or as many: `lsr explain refused
24 UnknownLink`. Capitals and small letters are alike. Words are parted by exactly one space. What
stands after the first `refused`, `error`, `config` or `entry N:` is explained, and else the first
word. That is one of these:
  N or NAME         a refusal: of `refused 24 UnknownLink` 24 or UnknownLink
  CODE/VALUE        an error of RSVP, as one word with a slash or, after `error`, as two words: of
                    `error 24 5` 24/5. Errors have names too, as NoRoute
  13/VALUE          an error about an object, and so is 14/VALUE; VALUE, 0 to 65535, is 256
                    times the object's class, plus its C-Type, and both are told. 13/N and
                    14/N tell of all such errors
  FAULT             a fault of a configuration: of `config BadValue limit` BadValue; or of a
                    recorded run: of `entry 7: Choice` Choice
  bad               of `bad line N`; unreadable, damaged, memory, unwritable, world, link,
                    segment, mismatch and clock, too: what else ends a run
  list              all that can be asked

The status is 0; 2 for what names nothing, which prints the three that come closest to it on
standard error; 1 where the output can't be written, or memory ran out.

Example: what to do about the line `error 24 5`.
  lsr explain error 24 5
Example: what to do about a line of the log.
  lsr explain tunnel 1 error 24/5 NoRoute from 10.0.0.3
";

pub(crate) const SERVE_ABOUT: &str = "\
Serves the links of a configuration over UDP sockets of this machine, and checks at exit that all
threads saw the same sequence of events";

pub(crate) const SERVE_HELP: &str = "\
Each link of FILE has `listen`, the socket address at which its frames come in, and `send`, to
which they go: addresses of this machine alone, as 127.0.0.1:5701, and all of one family.
docs/CONFIGURATION.md has the other keys; begin with copies of examples/serve-head.toml and
examples/serve-tail.toml.

Each link has a port of its own, 1, 2 and so on in the order of the links' numbers, and makes N
turns, in each of which it waits 100 milliseconds at most for one frame and serves it. The last
port is the clock's: N times it waits 100 milliseconds, and feeds a tick at 100, 200 and so on.
So a run lasts N tenths of a second at least. A link that took N frames sooner takes no more in
it.

With --journal the run is recorded in files named PREFIX.1, PREFIX.2 and so on: one for each 4096
events, written while the run goes on, and one at its end. Keep them: `lsr check $(ls -v
PREFIX.*[0-9])`, which names them by their numbers, says later, anywhere, whether that is what such
a router does, and `lsr show-journal PREFIX.1` prints the first.

With --console the router runs until it is told to end, and answers the lines of its input: those
of `lsr step` for operators (tunnel, change, cancel, drop, bypass, unbypass, route, unroute, up,
down, restart, start, and each show), `show counters`, `help`, and `quit`. What happens is told on
standard error as it happens, refused messages within a minute. The clock goes by real time. The
operator's lines have the last port, and the clock's is the one before it. Once a minute, or
sooner, a round is over: what was told so far is reconciled and given up, so that memory stays
bounded; with --journal a file is written then.
`show counters` prints what each port did up to the end of the last round, in the words below, the
socket addresses of the links, and since when a file of the journal isn't written.

With --mark a line with a full stop alone stands after each answer, for a program that reads them.

What is printed in the end:
  reconciled M entries     M events are in the journal, each once, in one order, and each thread
                           saw its own of them in that order
  mismatch PORT PLACE      they didn't: the first port, and the place among its receipts. The
                           status is 1 then

On standard error, in lines of a log, one for each port (link L, clock, console), and one for the
router:
  link L: N received: A processed, B forwarded, C dropped, D refused; I frames not sent, J socket errors
                           how many datagrams came, or ticks of the clock, and what became of
                           them: processed as events, forwarded or delivered by label, dropped
                           for a fault or for want of a way, and refused with one of 40 to 43; how
                           many frames nothing carried, and how often the socket failed
  router: A paths, B reservations, C repairs
                           what it knows at the end

The status is 0; 1 for a mismatch or with one of these on standard error; 2 where the words of the
command aren't taken, or N isn't 1 to 1000000:
  link L: socket    link L can't have this address, for the reason after it: it is in use, is no
                    loopback address, has port 0, or is of another family. Nothing was started
  config FAULT KEY  the first fault of FILE, and the key that it is about, as `lsr step` tells it;
                    `config Missing listen` and `config Missing send` come after all others
  unreadable        FILE can't be opened or read, isn't UTF-8, or has more than 16777216 bytes; or
                    the input of a console broke, or had a line of more bytes than that
  memory            there is no memory
  clock             with --console: the clock couldn't be read
  segment N: not kept
                    there was no memory for file N of the journal: the files end with the one
                    before it
  unwritable        the output or the error stream can't be written, or a file of the journal. Where
                    a PREFIX.N or PREFIX.1.part is there already, or the folder doesn't exist,
                    nothing was started

Example: in two terminals, two routers that set up an LSP from the second to the first.
  lsr serve examples/serve-tail.toml --turns 100
  lsr serve examples/serve-head.toml --turns 100
Example: a router that runs until `quit`.
  lsr serve examples/serve-head.toml --console
";

pub(crate) const PLAY_ABOUT: &str = "\
Plays a world of up to sixteen routers, joined by wires that lose, repeat and reorder as the lines
of a file say, and prints what each router answers and sends";

pub(crate) const PLAY_HELP: &str = "\
FILE is a text, read whole before its first line is taken. First come its routers and wires:
  router NAME FILE  there is a router, which FILE configures (docs/CONFIGURATION.md); NAME is any
                    word that no router above has. FILE is looked for in the folder in which `lsr`
                    runs. All such files are read before all else
  wire NAME LINK NAME LINK
                    link LINK of the one router, 1 to 65535, is joined to that of the other
and then moves, one in each line:
  deliver I         frame I, 1 to 18446744073709551615, arrives at the other end of its link
  repeat I          it arrives there once more. A frame that is never delivered is lost
  tick NAME N       the router's clock is at N milliseconds; it is opened at 0
  up NAME LINK      link LINK of the router comes up
  down NAME LINK    link LINK of the router goes down; its other end is a link of its own, and goes
                    down by a line of its own
  restart NAME      the router loses what messages had set up in it, and is started again
  do NAME COMMAND   the router is commanded: `tunnel ..`, `change ..`, `cancel N`, `drop N`, `bypass
                    ..`, `unbypass N`, `route PREFIX LINK` or `unroute PREFIX`, as lsr step --help
                    says
Words are separated by exactly one space, and nothing else stands in a line: no carriage return, no
blank before or after them. An empty line is a bad line.

What is printed for a move is what `lsr step` prints, with the name of the router that it happens
at in front; and before each frame that this router sends stands the frame's number:
  NAME done
  NAME error CODE VALUE
  NAME refused N NAME
  NAME deliver HEX
  NAME #I tx LINK HEX
  NAME #I frame LINK HEX
Frames are numbered from 1 in the order of sending, all of the world together, and kept, so any of
them can be delivered at any time. Of moves that can't be made nothing changes, and the run goes on:
  refused 50 NoFrame   there is no frame I, or no wire joins the link that it was sent over
  refused 51 NoRouter  no router has this NAME
  refused 40 NoMemory  there was no memory for the move

With --lab these lines are taken, too:
  # ..              lines that begin with #, and empty lines, are passed over
  show NAME WHAT    what lsr step prints for `show WHAT` of this router, each line with its name in
                    front; WHAT is paths, resvs, table, labels, links, tunnels, bypasses, config,
                    lsps or summary; path, resv or lsp and a KEY; or lsp and a tunnel's number
  run               frames that weren't delivered yet are, in the order of their numbers, and what
                    is sent then, too, until none is left or 65536 were: their moves are answered
                    as any are. Frames over links that no wire joins are passed over
  seed N MOVES      so many random moves, reproducible with the same seed N; both are 0 to
                    18446744073709551615. Most deliver the next frame; some lose it, repeat one,
                    bring one early, take a link down or up, or let time go on. Each but a loss is
                    printed before its answer, as `> deliver 7`, and can be played again without
                    --lab

The status is 0 where each line was taken, whatever is answered; 1 with one of these on standard
error; 2 where the words of the command aren't taken:
  unreadable        FILE, or a file that a line `router NAME FILE` names, can't be opened or read,
                    isn't UTF-8, or has more than 16777216 bytes; the line after it says which
  config FAULT KEY  the first fault of the routers' configurations, in the order of their lines
  bad line N        line N, counted from 1, has none of the forms above, declares a NAME twice,
                    joins a NAME that isn't declared above, or declares after a move. What the
                    lines before it asked for is done. The line and the form of its first word
                    follow
  world Routers     there is no router, or there are more than 16
  world Joint I     wire I, counted from 1, names a link that its router doesn't have, or one that
                    is joined already
  world Memory      there is no memory for the routers
  memory            there is no memory; what was printed before is done
  unwritable        the output or the error stream can't be written

Example: three routers in a line, between which a tunnel comes up.
  lsr play examples/world/line.play --lab
";

pub(crate) const CHECK_ABOUT: &str = "\
Says whether recorded runs are what a router with their configuration does, each from where the one
before it ended";

pub(crate) const CHECK_HELP: &str = "\
Each FILE is what `lsr step --journal` or `lsr serve --journal` recorded. Give the files of one run
in the order in which they were written, to audit a router's night or after a file was copied. Who
wrote them isn't trusted: each entry's step is decided anew, with the labels that it says were
chosen.

What is printed is a line for each file, up to the first that isn't such a run:
  run of N entries  its N entries are what a router with its configuration does, from where the
                    file before it ended
  entry 0: Format   its bytes are no journal file
  entry 0: Gap      it doesn't begin where the file before it ended
  entry 0: Base     what the router knew before the first entry can't be
  entry 0: Memory   there was no memory to tell
  entry I: Event    entry I, counted from 1, is of no event that there is, or of one that makes no
                    entry. Those before it are a run
  entry I: Choice   it has labels that may not be chosen
  entry I: Output   its reply, or what it says was sent, isn't the router's
Then the file, what was found in it and what was expected stand on standard error, and `lsr explain
Choice` says what to do.

The status is 0 where each file is such a run; 1 where one isn't, or with one of these on standard
error; 2 where the words of the command aren't taken:
  unreadable        FILE can't be opened or read, or has more than 16777216 bytes; the line after
                    it says which
  memory            there is no memory
  unwritable        the output or the error stream can't be written

Example: a night in three files.
  lsr check $(ls -v night.*[0-9])
";

pub(crate) const SHOW_JOURNAL_ABOUT: &str = "\
Prints a recorded run, entry by entry";

pub(crate) const SHOW_JOURNAL_HELP: &str = "\
FILE is what `lsr step --journal` or `lsr serve --journal` recorded. Each of its entries is printed
as lines, in their order, as it stands there: to see what a router did, or what is wrong with the
entry that `lsr check` names. Whether it is what a router does is asked of `lsr check` alone.

The status is 0; 1 with the reason on standard error where FILE can't be read or is no journal file,
the output can't be written, or memory ran out; 2 where the words of the command aren't taken.

Example: what a run recorded.
  lsr step --journal night.1 < lines; lsr show-journal night.1
";
