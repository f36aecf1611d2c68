//! What each refusal means, in the order of their numbers.

/// A heading for each, its number and its name, and after it what it means, in lines that begin with spaces.
pub const REFUSALS: &str = "\
1 Short
  The message has fewer than the 8 bytes of its header, or the frame ends before its
  message or payload begins.
  What to do: check that the message was captured and copied completely.
  See: RFC 2205, 3.1.1; docs/WIRE.md (Frames)
2 Version
  The message's first four bits aren't 1: it is of another version of RSVP, or no
  message of RSVP at all.
  What to do: begin with the message's own header. An IP header never stands before it; a
  frame's kind does in `frame LINK HEX` alone, and not in `rx LINK HEX` or `lsr decode HEX`.
  See: RFC 2205, 3.1.1
3 LengthField
  The header's length field doesn't count the message's bytes, so some were lost or
  added; or in a frame the bottom of stack bit isn't set in the last label entry alone.
  What to do: see that the message is whole and stands alone; else its sender is at fault.
  See: RFC 2205, 3.1.1; RFC 3032, 2.1
4 Checksum
  The checksum is neither 0 nor right: the message was damaged on its way, or edited.
  What to do: have it sent again. In a message that you edit, write 0000 as its third and fourth
  byte, which says that it has no checksum.
  See: RFC 2205, 3.1.1; RFC 1071
5 ObjectLength
  The length of an object, or of a subobject of a route or a record, is below 4, no
  multiple of 4, past the end, or wrong for its class; or a name is longer than its object.
  What to do: compare the objects with docs/WIRE.md (Objects); their sender is at fault.
  See: RFC 2205, 3.1.2; RFC 3209, 4.3.3 and 4.4.1
6 MissingObject
  An object that this type of message needs is absent, or has a C-Type that isn't known
  here, as the SESSION of an IPv6 tunnel; or the flow descriptors after STYLE don't follow
  the grammar of their style.
  What to do: compare the objects with docs/WIRE.md (What each type has); their sender is at
  fault.
  See: RFC 2205, 3.1.3 to 3.1.8; RFC 3209, 3.1 and 3.2
7 KindUnsupported
  The message's type is none of 1 to 6, or the frame doesn't take it; or the frame's or its
  payload's kind isn't known here. A Labelled frame (kind 2) whose labels end here takes Path,
  ResvErr and PathTear, a Routed frame (kind 3) Resv, PathErr and ResvTear.
  What to do: turn off at the neighbour what sends it, such as Hello, Bundle or Srefresh; ResvConf
  (7) does no harm.
  In `frame LINK HEX` begin with 01 before a message, or with 02 before labels.
  See: RFC 2205, 3.1.1; RFC 4090, 6.4; docs/WIRE.md (Frames)
8 Integrity
  The message has an INTEGRITY object. This router can't check it, and takes nothing
  that was to be checked.
  What to do: turn off the authentication of RSVP at the neighbour.
  See: RFC 2205, A.3
9 TooLong
  The message or the payload has more than 4096 bytes, the frame more than 8 labels,
  or a route, a record or what is passed on is above its limit.
  What to do: shorten the route, or turn off the recording of routes where the tunnel begins.
  See: docs/WIRE.md (Limits); docs/WIRE.md (Frames)
10 NoMatch
  The message names a path or reservation that this router doesn't have, or no route leads to the
  router that a Routed frame is for. A PathTear and a ResvErr have to come from the hop that their
  path comes from, over the same link; a PathErr, a Resv and a ResvTear over the link that their
  path leaves by.
  Through labels that end here a PathTear and a ResvErr have to name the sender of a backup path
  that joined a path here. In a Routed frame for this router a Resv, a PathErr and a ResvTear
  have to name an LSP that runs over a bypass of this router, by the address that this router has
  on the protected link; and a Resv and a ResvTear have to come from the end of that bypass.
  A Resv whose record has an address of this router is refused so too: it has been here before.
  And so is a Path of an LSP that begins here: no other router sends it.
  What to do: nothing, where the path or reservation was torn down or expired before. Else
  compare session, sender, LSP ID and link with `show paths` and `show resvs`, and the end of the
  bypass with `show bypasses` and `show tunnels`.
  See: RFC 2205, 3.1.5 to 3.1.8; RFC 3209, 4.4.4; RFC 4090, 6.4; docs/ROUTER.md (A Resv comes)
11 NoMerge
  A Path came through labels that end here, for an LSP that another router leads over a bypass.
  Not exactly one path here is the one that this backup path joins, which has its session, its
  LSP ID and another sender, and doesn't begin here; or three other backup paths have joined that
  path, and there is no room for one more.
  What to do: see that the protected path passes here, and that no two LSPs have its LSP ID.
  See: RFC 4090, 7; docs/ROUTER.md (Messages of repaired LSPs, and the merge point)
12 LinkDown
  It came over a link that is down here.
  What to do: take the link up first: `up LINK`. `show links` says which links are up.
  See: docs/ROUTER.md (A message comes)
13 HopLimit
  The frame would go on, but the TTL of its label, or the limit of a Routed frame, is 0 or 1:
  it was passed on as often as that lets it be, so it may be going round in a loop.
  What to do: look for a loop in the routes of the routers that it passes; without one, let its
  sender begin with a greater TTL or limit.
  See: RFC 3032, 2.4; docs/PROGRAM.md (`lsr step`: whole frames)
14 NoLabel
  Nothing is done here with the frame's top label, or with the next one where those above it
  were taken away: this router didn't give it out, or its LSP has gone, or is reserved no
  more.
  What to do: nothing, where the LSP was torn down or the router restarted just now. Else
  compare the label with `show table`, and with the one in the Resv that the neighbour got.
  See: RFC 3031, 3.18; docs/PROGRAM.md (`lsr step`: whole frames)
20 UnknownTunnel
  No tunnel that begins here has the number that the command names. After `unbypass N`: there is no
  bypass N.
  What to do: name one that there is; `show tunnels` lists the tunnels, `show bypasses` the
  bypasses. The tunnel that a bypass is to run in has to be there first: add it with `tunnel`.
  See: docs/ROUTER.md (A command comes)
21 TunnelExists
  A tunnel that begins here has this number already.
  What to do: take another number; or change that tunnel with `change N RATE ROUTE..`, or drop it
  first with `drop N`.
  See: docs/ROUTER.md (A command comes)
22 BadRoute
  Of `tunnel` and `change`: the route can't be followed from here or has more than 31
  steps, the endpoint is this router, a priority is above 7, or the rate is no rate: it is
  negative, no number, or 2^50 bytes per second or more.
  Of `route` and `unroute`: the prefix's length is above 32, or there is no such route to drop.
  What to do: leave this router's own step out; write the first step as a neighbour over a link
  that is up (`show links`), or with `~` before it where a static route leads to it. Without a
  step a link or a static route has to lead to the endpoint. Write the rate as the eight digits
  of its 32 bits: 47f42400 is 125000 bytes per second.
  See: RFC 3209, 4.3.4.1; RFC 2215, 3.6; docs/ROUTER.md (A command comes)
23 ChangePending
  The tunnel is being changed already, and the LSP of that change isn't reserved yet.
  What to do: wait until it is, when `show tunnels` tells `pending none`; or give the change up
  with `cancel N`.
  See: RFC 3209, 2.5; docs/ROUTER.md (A command comes)
24 UnknownLink
  No link has this number.
  What to do: name a link of the configuration; `show links` lists them.
  See: docs/CONFIGURATION.md (`[[link]]`); docs/ROUTER.md (A message comes)
25 BypassExists
  A bypass has this number already: a line `bypass` added it, or a table `[[bypass]]` of the
  configuration. A bypass and a tunnel may have the same number.
  What to do: take another number, or drop that bypass first with `unbypass N`. `show bypasses`
  lists them.
  See: docs/ROUTER.md (A command comes; Bypasses and local repair)
26 BypassOnItsLink
  A bypass that leaves by the link that it protects is no use: both are down at once. Of `bypass`:
  the tunnel's current LSP leaves by that link. Of `change`: the tunnel's new LSP would leave by
  a link that a bypass in this tunnel protects. A tunnel whose current LSP has no path yet is
  taken for a bypass as it is, also from a configuration. It may come to leave by that link later;
  no LSP is then repaired over it.
  What to do: `show paths` tells by which link the tunnel leaves, `show bypasses` which links its
  bypasses protect. Of `bypass`: name another tunnel; or lead this one over another link with
  `change N RATE ROUTE..`, and try again once `show tunnels` tells `pending none`. Of `change`:
  lead the tunnel over another link, or drop that bypass first with `unbypass N`.
  See: RFC 4090, 6.2; docs/ROUTER.md (A command comes; Bypasses and local repair)
27 Full
  There are as many of this kind as the router keeps: 256 static routes, 256 tunnels that
  begin here, 64 bypasses, 1024 LSPs that begin, pass or end here. So it is with the LSP IDs of
  a tunnel once 65535 was used. Where there is no room for the LSP of a Path it says error 23/0.
  What to do: drop one first; drop a tunnel without LSP IDs and add it anew.
  See: docs/ROUTER.md (A command comes)
28 InUse
  Of `drop N`: a bypass runs in tunnel N, so the tunnel has to stay. Of `unbypass N`: LSPs run
  over bypass N since the link that it protects went down, so it has to stay.
  What to do: of `drop`: `show bypasses` tells which bypasses run in the tunnel. Drop each of them
  first, with `unbypass` and its own number. Of `unbypass`: the number after `up` or `down` in the
  bypass's line tells how many LSPs run over it. Wait until they are torn down or led elsewhere by
  their heads.
  See: docs/ROUTER.md (A command comes; Bypasses and local repair)
29 Late
  The time is before the last one that the router was told.
  What to do: go on from that time: it doesn't run backwards. The same time may come again.
  See: docs/ROUTER.md (A moment comes)
30 BadMoment
  The time is above 4611686018427387904 (2^62) milliseconds.
  What to do: give the milliseconds since the router was opened, and not a date.
  See: docs/ROUTER.md (A moment comes)
31 BadCapacity
  A bypass can't promise more bandwidth than its tunnel asks for. Of `bypass`: the capacity is
  above the rate of the tunnel, or above that of the LSP that a change of it is to bring. Of
  `change`: the new rate is below the capacity of a bypass that runs in the tunnel. Nothing
  changed.
  What to do: of `bypass`: name a lower capacity, or raise the tunnel's rate first with
  `change N RATE ROUTE..`, and try again once `show tunnels` tells `pending none`. Of `change`:
  `show bypasses` tells the capacities, as the last number but one of each line. Drop that
  bypass with `unbypass N`, and add it anew with a lower capacity.
  See: RFC 4090, 4.3; docs/ROUTER.md (A command comes; Bypasses and local repair)
40 NoMemory
  There was no memory for it. Nothing changed.
  What to do: free some memory and try again; neighbours repeat their messages by themselves.
  See: README.md (What is promised)
41 JournalFull
  The journal has all the entries that it can hold. Nothing changed. It ends a run of
  `lsr step --journal`, whose file has 4096 entries at most. `lsr serve` takes the entries away
  before, and doesn't say so.
  What to do: record fewer lines in a run; of a router that you embed, rotate the journal and try
  again.
  See: docs/PROGRAM.md (`lsr step --journal`: a run that others can check); docs/CRATES.md (To
  embed the router)
42 IsCold
  The router was restarted, lost what messages had set up in it, and is stopped. Until `start` it
  takes no message, no tick, no command, and no link that comes up or goes down.
  What to do: start it: `start`. `show` and labelled frames are answered all the same, but for
  messages whose labels end here.
  See: docs/ROUTER.md (A restart)
43 WrongPort
  The port isn't the one that the router knows by its number, or isn't at the entry
  that the router gave it last. Nothing changed. `lsr step` has no ports, and each worker of
  `lsr serve` keeps to its own: neither says so.
  What to do: of a router that you embed, feed events by the port that it was opened with.
  See: docs/PROGRAM.md (`lsr serve`: a router over sockets); docs/CRATES.md (To embed the router)
50 NoFrame
  Of `lsr play`: no frame of this number was sent, or no wire joins the link that it was sent over.
  Nothing changed.
  What to do: name a frame by the number that stands before it, as 1 for `#1`; join its link by a
  line `wire NAME LINK NAME LINK`.
  See: docs/PROGRAM.md (`lsr play`: a world of routers)
51 NoRouter
  Of `lsr play`: no router of the world has this name. Nothing changed.
  What to do: name one that a line `router NAME FILE` declares.
  See: docs/PROGRAM.md (`lsr play`: a world of routers)
";
