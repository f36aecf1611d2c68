ghost use Rattle.std.specs.Prelude.{◌≡◌, ◌++◌, OnOk};
ghost use Rattle.field_bytes.specs.Making.{Makes};
ghost use Rattle.fact_fields.specs.Fitting.{AskedFits, IsAny, RequestFits, WayFits};
ghost use Rattle.fact_fields.specs.Paths.{asked_bytes, asked_parts, path_parts, request_bytes, request_of, request_parts, role_number, way_bytes, way_of, way_parts};

use crate::options::put_option;
use crate::origins::OriginField;
use crate::tables::TableField;
use body_fields::{
    AttrField, PassingField, ProtectionField, RecordField, RouteField, TrafficField, put_byte,
};
use field_bytes::{Address, Byte, Field, Optional, Pair, Put, ReadFault, Short};
use lsr_facts::{Origin, PathFact, Role};
use rsvp_bodies::{Attr, Record, Route, Sender, Tspec};
use rsvp_contents::Passing;
use rsvp_objects::{FastReroute, LabelRequest};
use sorted_rows::Table;
use std::alloc::{AllocError, Global};
use std::net::Ipv4Addr;

/// The number of a path that goes on, of one that ends here, and of one that begins here.
const ROLE_TRANSIT: u8 = 0;

const ROLE_TAIL: u8 = 1;

const ROLE_HEAD: u8 = 2;

/// What a router is on an LSP's way, by its number.
struct RoleField;

/// The role of this number.
#[tactic(auto, using(crate::specs::Paths::no_role))]
fn role_of(number: u8) -> Result<Role, ReadFault>
    ensures { Makes IsAny role_number number result }
{
    if number == ROLE_TRANSIT {
        Ok(Role::Transit)
    } else if number == ROLE_TAIL {
        Ok(Role::Tail)
    } else if number == ROLE_HEAD {
        Ok(Role::Head)
    } else {
        Err(ReadFault::Format)
    }
}

impl Field for RoleField {
    ghost use Rattle.fact_fields.specs.Fitting.{RoleFits};
    ghost use Rattle.fact_fields.specs.Laws.{one_role};
    ghost use Rattle.fact_fields.specs.Paths.{role_bytes};

    type Value = Role;

    ghost Fits = { RoleFits };

    ghost spelling = { role_bytes };

    ghost one = { one_role };

    fn read(alloc: Global, bytes: &[u8]) -> Result<(Role, &[u8]), ReadFault> {
        let (number, rest) = Byte::read(alloc, bytes)?;
        Ok((role_of(number)?, rest))
    }
}

impl Put for RoleField {
    fn put(role: &Role, out: &mut Vec<u8>) -> Result<(), AllocError> {
        match role {
            Role::Transit => put_byte(ROLE_TRANSIT, out),
            Role::Tail => put_byte(ROLE_TAIL, out),
            Role::Head => put_byte(ROLE_HEAD, out),
        }
    }
}

/// The origins of a path, by the sender that the Path named.
struct OriginsField;

/// The origins as a table of rows.
type OriginTable = TableField<Ipv4Addr, Origin, Pair<Address, OriginField>>;

impl Field for OriginsField {
    ghost use Rattle.field_bytes.specs.Spelling.{list_bytes};
    ghost use Rattle.fact_fields.specs.Fitting.{OriginsFit};
    ghost use Rattle.fact_fields.specs.Laws.{one_origins};
    ghost use Rattle.fact_fields.specs.Origins.{origin_row_bytes};

    type Value = Table<Ipv4Addr, Origin>;

    ghost Fits = { OriginsFit };

    ghost spelling = { list_bytes origin_row_bytes };

    ghost one = { one_origins };

    fn read(alloc: Global, bytes: &[u8]) -> Result<(Table<Ipv4Addr, Origin>, &[u8]), ReadFault> {
        <OriginTable as Field>::read(alloc, bytes)
    }
}

impl Put for OriginsField {
    fn put(origins: &Table<Ipv4Addr, Origin>, out: &mut Vec<u8>) -> Result<(), AllocError> {
        OriginTable::put(origins, out)
    }
}

/// What a path asks for.
#[derive(Debug, Drop)]
pub struct PathRequest {
    /// The protocol that it is to carry (RFC 3209, 4.2).
    pub l3pid: u16,
    /// Its traffic.
    pub tspec: Tspec,
    /// Its attributes.
    pub attr: Option<Attr>,
    /// Its protection.
    pub fast_reroute: Option<FastReroute>,
    /// Objects that are passed on.
    pub passing: Passing,
}

/// What follows a path's traffic: attributes, protection, and objects that are passed on.
struct AskedField;

/// What follows a path's traffic.
type AskedValue = (Option<Attr>, (Option<FastReroute>, Passing));

/// The parts of what follows a path's traffic.
type AskedParts = Pair<Optional<AttrField>, Pair<Optional<ProtectionField>, PassingField>>;

impl Field for AskedField {
    ghost use Rattle.fact_fields.specs.Fitting.{AskedFits};
    ghost use Rattle.fact_fields.specs.Laws.{asked_part_bytes, one_asked};

    type Value = (Option<Attr>, (Option<FastReroute>, Passing));

    ghost Fits = { AskedFits };

    ghost spelling = { asked_part_bytes };

    ghost one = { one_asked };

    fn read(alloc: Global, bytes: &[u8]) -> Result<(AskedValue, &[u8]), ReadFault> {
        <AskedParts as Field>::read(alloc, bytes)
    }
}

/// What a path asks for: the protocol that it is to carry, its traffic, attributes, protection, and objects that are passed on.
struct PathRequestField;

/// The parts of what a path asks for.
type RequestParts = Pair<Short, Pair<TrafficField<Sender>, AskedField>>;

/// What is asked for by these.
fn request_by(parts: (u16, (Tspec, AskedValue))) -> PathRequest
    ensures { request_parts result ≡ parts }
{
    let (l3pid, (tspec, (attr, (fast_reroute, passing)))) = parts;
    PathRequest {
        l3pid,
        tspec,
        attr,
        fast_reroute,
        passing,
    }
}

impl Field for PathRequestField {
    ghost use Rattle.fact_fields.specs.Fitting.{RequestFits};
    ghost use Rattle.fact_fields.specs.Laws.{one_request};
    ghost use Rattle.fact_fields.specs.Paths.{request_bytes};

    type Value = PathRequest;

    ghost Fits = { RequestFits };

    ghost spelling = { request_bytes };

    ghost one = { one_request };

    fn read(alloc: Global, bytes: &[u8]) -> Result<(PathRequest, &[u8]), ReadFault> {
        let (parts, rest) = <RequestParts as Field>::read(alloc, bytes)?;
        Ok((request_by(parts), rest))
    }
}

/// The way of a path.
#[derive(Debug, Drop)]
pub struct PathWay {
    /// The route that its Path came with.
    pub given: Option<Route>,
    /// What is left of it for the next hop.
    pub rest: Option<Route>,
    /// The route that it took.
    pub recorded: Option<Record>,
}

/// The way of a path: the route that its Path came with, what is left of it, and the one that it took.
struct PathWayField;

/// The parts of the way of a path.
type WayParts = Pair<Optional<RouteField>, Pair<Optional<RouteField>, Optional<RecordField>>>;

/// The way of these.
fn way_by(parts: (Option<Route>, (Option<Route>, Option<Record>))) -> PathWay
    ensures { way_parts result ≡ parts }
{
    let (given, (rest, recorded)) = parts;
    PathWay {
        given,
        rest,
        recorded,
    }
}

impl Field for PathWayField {
    ghost use Rattle.fact_fields.specs.Fitting.{WayFits};
    ghost use Rattle.fact_fields.specs.Laws.{one_way};
    ghost use Rattle.fact_fields.specs.Paths.{way_bytes};

    type Value = PathWay;

    ghost Fits = { WayFits };

    ghost spelling = { way_bytes };

    ghost one = { one_way };

    fn read(alloc: Global, bytes: &[u8]) -> Result<(PathWay, &[u8]), ReadFault> {
        let (parts, rest) = <WayParts as Field>::read(alloc, bytes)?;
        Ok((way_by(parts), rest))
    }
}

/// A path: its role, its origins, the link that it leaves by, its way and what it asks for.
pub struct PathField;

/// The parts of a path.
type PathParts = Pair<
    RoleField,
    Pair<OriginsField, Pair<Short, Pair<PathWayField, PathRequestField>>>,
>;

/// The parts of a path.
type PathValue = (
    Role,
    (Table<Ipv4Addr, Origin>, (u16, (PathWay, PathRequest))),
);

/// The path of these.
fn path_of(parts: PathValue) -> PathFact
    ensures { path_parts result ≡ parts }
{
    let (role, (origins, (out_link, (way, request)))) = parts;
    PathFact {
        role,
        origins,
        out_link,
        given: way.given,
        rest: way.rest,
        recorded: way.recorded,
        label_request: LabelRequest {
            l3pid: request.l3pid,
        },
        tspec: request.tspec,
        attr: request.attr,
        fast_reroute: request.fast_reroute,
        passing: request.passing,
    }
}

impl Field for PathField {
    ghost use Rattle.fact_fields.specs.Fitting.{PathFits};
    ghost use Rattle.fact_fields.specs.Laws.{one_path};
    ghost use Rattle.fact_fields.specs.Paths.{path_bytes};

    type Value = PathFact;

    ghost Fits = { PathFits };

    ghost spelling = { path_bytes };

    ghost one = { one_path };

    fn read(alloc: Global, bytes: &[u8]) -> Result<(PathFact, &[u8]), ReadFault> {
        let (parts, rest) = <PathParts as Field>::read(alloc, bytes)?;
        Ok((path_of(parts), rest))
    }
}

/// Appends what follows a path's traffic: attributes, protection, and objects that are passed on.
fn put_asked(path: &PathFact, out: &mut Vec<u8>) -> Result<(), AllocError>
    ensures ok { OnOk result (out.new.items ≡ out.old.items ++ asked_bytes (request_of path.now)) }
    ensures fits { OnOk result (AskedFits (asked_parts (request_of path.now))) }
{
    put_option::<AttrField>(&path.attr, out)?;
    put_option::<ProtectionField>(&path.fast_reroute, out)?;
    PassingField::put(&path.passing, out)
}

/// Appends what a path asks for.
fn put_request(path: &PathFact, out: &mut Vec<u8>) -> Result<(), AllocError>
    ensures ok { OnOk result (out.new.items ≡ out.old.items ++ request_bytes (request_of path.now)) }
    ensures fits { OnOk result (RequestFits (request_of path.now)) }
{
    Short::put(&path.label_request.l3pid, out)?;
    TrafficField::<Sender>::put(&path.tspec, out)?;
    put_asked(path, out)
}

/// Appends the way of a path.
fn put_way(path: &PathFact, out: &mut Vec<u8>) -> Result<(), AllocError>
    ensures ok { OnOk result (out.new.items ≡ out.old.items ++ way_bytes (way_of path.now)) }
    ensures fits { OnOk result (WayFits (way_of path.now)) }
{
    put_option::<RouteField>(&path.given, out)?;
    put_option::<RouteField>(&path.rest, out)?;
    put_option::<RecordField>(&path.recorded, out)
}

impl Put for PathField {
    fn put(path: &PathFact, out: &mut Vec<u8>) -> Result<(), AllocError> {
        RoleField::put(&path.role, out)?;
        OriginsField::put(&path.origins, out)?;
        Short::put(&path.out_link, out)?;
        put_way(path, out)?;
        put_request(path, out)
    }
}
