//! What each error of RSVP means, in the order of codes and values (RFC 2205, B; RFC 2750, A; RFC 3209, 7.3).

/// A heading for each, its code and value and a name, and after it what it means, in lines that begin with spaces. A
/// value `N` stands for any: it is 256 times the class of an object, plus its C-Type.
pub const ERRORS: &str = "\
1/1 DelayBound
  Admission control failure: the delay that the reservation asks for can't be met.
  This router never says so; it passes it on.
  What to do: ask for a longer delay, or route the tunnel elsewhere.
  See: RFC 2205, B (code 1)
1/2 NoBandwidth
  Admission control failure: with this reservation more would be reserved on the link
  than its limit, at this setup priority. Or the LSP runs over a bypass, and asks for more than
  it was promised of that bypass's capacity. An older reservation of the LSP stays.
  What to do: ask for less, route the tunnel elsewhere, raise the link's `limit`, or give the
  tunnel a better setup priority (a lower number), so that others give way. `show links` says
  what is reserved at each priority, `show resv KEY` what the LSP was promised.
  See: RFC 2205, B (code 1); RFC 3209, 4.7.3; RFC 4090, 4.3
1/3 MtuTooLarge
  Admission control failure: the greatest packet of the FLOWSPEC is longer than the
  link takes. This router never says so; it passes it on.
  What to do: send shorter packets into the tunnel.
  See: RFC 2205, B (code 1)
2/5 PreemptedByPolicy
  Policy control failure: the reservation was taken away for another one. RFC 3209 asks
  for this code where a better priority takes the bandwidth. This router never says so; it
  passes it on, and says 12/0 of what it takes away itself.
  What to do: route the tunnel elsewhere, or give it a better holding priority (a lower number).
  See: RFC 2205, B (code 2); RFC 2750, A (value 5); RFC 3209, 4.7.3
3/0 NoPath
  A Resv came for a session that has no path here: its Path never came, was torn down or
  has expired, or the router restarted.
  What to do: wait for the next Path, which its sender repeats; if none comes, look upstream.
  See: RFC 2205, B (code 3)
4/0 NoSender
  A Resv came for a session that has paths here, but none of the sender and LSP ID
  that it names.
  What to do: compare the sender and the LSP ID of the Resv with `show paths`.
  See: RFC 2205, B (code 4)
5/10 ConflictsWithFixed
  A Resv came in shared explicit style, and other LSPs of its session are reserved on
  the link in fixed filter style.
  What to do: let all LSPs of the tunnel ask for one style where it begins (flag 0x04 of
  SESSION_ATTRIBUTE asks for shared explicit), or tear down the others first.
  See: RFC 2205, B (code 5); RFC 3209, 2.4 and 4.7.1
5/18 ConflictsWithShared
  A Resv came in fixed filter style, and other LSPs of its session are reserved on the
  link in shared explicit style.
  What to do: let all LSPs of the tunnel ask for one style where it begins (flag 0x04 of
  SESSION_ATTRIBUTE asks for shared explicit), or tear down the others first.
  See: RFC 2205, B (code 5); RFC 3209, 2.4 and 4.7.1
6/0 UnknownStyle
  A Resv came in another style than fixed filter and shared explicit. Wildcard filter
  isn't taken here.
  What to do: let the tunnel's end use one of the two styles.
  See: RFC 2205, B (code 6); RFC 3209, 2.4
12/0 Preempted
  Service preempted: the reservation was taken away for one of a better priority, for
  which the link had no other room. This router says so in a ResvErr downstream; RFC 3209
  asks for a policy control failure there, and other routers may say 2/5.
  What to do: route the tunnel elsewhere, or give it a better holding priority (a lower number).
  See: RFC 2205, B (code 12); RFC 3209, 4.7.3; docs/ROUTER.md (A Resv comes)
13/N UnknownClass
  The message has an object of a class that isn't known here and that mustn't be
  ignored. N is 256 times its class, plus its C-Type.
  What to do: turn off at its sender the feature that the object belongs to; class 63 is the
  DETOUR of one-to-one backup.
  See: RFC 2205, B (code 13) and 3.10; RFC 4090, 4.2
14/N UnknownCType
  The message has an object of a known class with a C-Type that isn't known here. N is 256
  times its class, plus its C-Type. Where the message needs that very object, it is refused
  as MissingObject (6) in place of this.
  What to do: turn off at its sender the feature that the object belongs to.
  See: RFC 2205, B (code 14) and 3.10; docs/WIRE.md (Objects)
21/1 ServiceConflict
  Traffic control error: two services can't be merged. This router never says so; it
  passes it on.
  What to do: let all LSPs of the session ask for one service.
  See: RFC 2205, B (code 21)
21/2 ServiceUnsupported
  Traffic control error: the FLOWSPEC asks for another service than controlled load.
  What to do: let the tunnel's end ask for controlled load (service 5).
  See: RFC 2205, B (code 21); RFC 2210, 3.2
21/3 BadFlowspec
  Traffic control error: the FLOWSPEC has a wrong shape, or its rate is negative, no
  number, or 2^50 bytes per second or more.
  What to do: compare it with docs/WIRE.md (Traffic); the tunnel's end is at fault.
  See: RFC 2205, B (code 21); RFC 2210, 3.2
21/4 BadTspec
  Traffic control error: the SENDER_TSPEC has a wrong shape, or its rate is negative,
  no number, or 2^50 bytes per second or more.
  What to do: compare it with docs/WIRE.md (Traffic); the tunnel's head is at fault.
  See: RFC 2205, B (code 21); RFC 2210, 3.1
21/5 BadAdspec
  Traffic control error: the ADSPEC can't be taken. This router never says so; it
  passes it on.
  What to do: turn off the ADSPEC where the tunnel begins.
  See: RFC 2205, B (code 21)
23/0 SystemError
  The router has no room for another LSP: it keeps 1024. Of other routers it may mean any
  other fault of theirs.
  What to do: tear down LSPs that pass here, or route the new one elsewhere.
  See: RFC 2205, B (code 23); docs/ROUTER.md (A Path comes)
24/1 BadExplicitRoute
  The explicit route has no step, or one that was looked at is no IPv4 prefix of at most
  32 bits.
  What to do: write the tunnel's route with IPv4 steps alone.
  See: RFC 3209, 7.3 and 4.3.4.1
24/2 BadStrictNode
  The next step of the explicit route is strict, and none of its nodes is a neighbour over
  a link that is up.
  What to do: take that link up, or fix the step: a strict step is a neighbour; where it lies
  further away, make it loose or put the steps between before it. Compare the `peer_router` of the
  link with the neighbour's own `router`.
  See: RFC 3209, 7.3 and 4.3.4.1
24/3 BadLooseNode
  The next step of the explicit route is loose, and no link that is up and no static
  route leads to it.
  What to do: add a static route to the step's address, or take up the link that leads there.
  See: RFC 3209, 7.3 and 4.3.4.1
24/4 BadInitialSubobject
  The first step of the explicit route isn't this router: the router before it sent
  the Path to the wrong neighbour, or didn't take its own steps away.
  What to do: compare the route with the addresses of the routers on its way.
  See: RFC 3209, 7.3 and 4.3.4.1
24/5 NoRoute
  No link that is up and no static route leads to the tunnel's endpoint.
  What to do: add a static route to the endpoint, or take up the link that leads there.
  See: RFC 3209, 7.3
24/6 BadLabel
  The label of a Resv is none that a neighbour may give: 16 to 1048575, 0, or 3, which asks
  for frames without a label.
  What to do: the neighbour that gave the label is at fault.
  See: RFC 3209, 7.3 and 4.1; RFC 3032, 2.1
24/7 RoutingLoop
  The record of the Path has an address of this router: the path has been here before, or two
  routers have the same `router`, the router's own address, in their configurations.
  What to do: see that each router on the way has a `router` of its own. Then look for a loop in
  the static routes, or give the tunnel an explicit route.
  See: RFC 3209, 7.3 and 4.4.4; docs/CONFIGURATION.md (The router)
24/8 NonRsvpRouter
  A router that doesn't speak RSVP stands in the path. This router never says so; it
  passes it on.
  What to do: route the tunnel round that router.
  See: RFC 3209, 7.3
24/9 LabelsTaken
  All labels that this router may give out are held by LSPs, or rest: where `label_rest_ms` of
  the configuration is above 0, a label that its LSP lost is given out again only after that
  time, so that what a neighbour still sends with it reaches nobody.
  What to do: `show labels` tells which are held and which rest, and for how long still. Wait
  until one is free: the Path comes again by itself. Or give `labels` a longer range in the
  configuration, or `label_rest_ms` a shorter time, or tear down LSPs.
  See: RFC 3209, 7.3; docs/CONFIGURATION.md (The router)
24/10 UnsupportedL3pid
  The LSP is to carry another protocol than IPv4 (L3PID 0x0800).
  What to do: ask for IPv4 where the tunnel begins.
  See: RFC 3209, 7.3 and 4.2.4
25/1 RecordTooLong
  Notify: the record of the Path has no room for one more address, so the Path goes on
  without its record. This router tells the tunnel's head so, and answers the Path `done`. This is
  informational, not an error.
  What to do: nothing; turn off the recording of routes where the tunnel begins if it isn't needed.
  See: RFC 3209, 7.3 and 4.4.3
25/2 RecordNotified
  Notify: on the way of a Resv its record became too long, and the tunnel's end tells the
  head so. This router never says so; it passes it on.
  What to do: nothing; turn off the recording of routes where the tunnel begins if it isn't needed.
  See: RFC 3209, 7.3 and 4.4.3
25/3 LocallyRepaired
  Notify: a link or router on the way failed, and the tunnel goes round it over a bypass.
  This is informational, not an error: the tunnel works. This router says so to the routers that
  an LSP's Paths came from when it moves the LSP onto a bypass. What another router says it passes
  on; where the tunnel begins here, `show tunnels` tells it.
  What to do: route the tunnel anew while the bypass carries it: where it begins,
  `change N RATE ROUTE..` sets up the new way before it leaves the old one.
  See: RFC 3209, 7.3; RFC 4090, 6.5.1; docs/ROUTER.md (Bypasses and local repair)
";
