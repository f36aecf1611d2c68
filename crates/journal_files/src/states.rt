//! What a router knows, in a file: part by part, one after the other.

ghost use Rattle.std.specs.Prelude.{◌≡◌};
ghost use Rattle.journal_files.specs.States.{label_state_parts, link_state_parts, lsp_state_parts, node_state_parts, state_parts};

use crate::tables::{
    BypassTable, LabelTable, PathTable, RepairTable, ResvTable, RouteTable, TunnelTable, UpTable,
};
use fact_fields::{Sent, SentField};
use field_bytes::{Field, Flag, Long, Pair, ReadFault};
use lsr_facts::{Assignment, Bypass, Facts, Key, PathFact, Repair, ResvFact, State, Tunnel};
use rsvp_bodies::Prefix;
use sorted_rows::Table;
use std::alloc::Global;
use std::marker::PhantomData;

/// What a router knows of itself and of its links.
#[derive(Debug, Drop)]
pub struct LinkState {
    /// Whether it is cold.
    pub cold: bool,
    /// The moment that it was told last, in milliseconds.
    pub moment: u64,
    /// Of each link whether it is up.
    pub up: Table<u16, bool>,
}

/// Whether a router is cold, its moment, and of each link whether it is up.
pub struct LinkStateField;

/// The parts of [`LinkState`].
type LinkStateParts = Pair<Flag, Pair<Long, UpTable>>;

/// The parts of [`LinkState`].
type LinkStateValue = (bool, (u64, Table<u16, bool>));

/// What is known, of these.
fn links_of(parts: LinkStateValue) -> LinkState
    ensures { link_state_parts result ≡ parts }
{
    let (cold, (moment, up)) = parts;
    LinkState { cold, moment, up }
}

impl Field for LinkStateField {
    ghost use Rattle.journal_files.specs.Fitting.{LinkStateFits};
    ghost use Rattle.journal_files.specs.FileLaws.{one_link_state};
    ghost use Rattle.journal_files.specs.States.{link_state_bytes};

    type Value = LinkState;

    ghost Fits = { LinkStateFits };

    ghost spelling = { link_state_bytes };

    ghost one = { one_link_state };

    fn read(alloc: Global, bytes: &[u8]) -> Result<(LinkState, &[u8]), ReadFault> {
        let (parts, rest) = <LinkStateParts as Field>::read(alloc, bytes)?;
        Ok((links_of(parts), rest))
    }
}

/// What a router was told to do: where it sends what, and how it protects its links.
#[derive(Debug, Drop)]
pub struct NodeState {
    /// The static routes.
    pub routes: Table<Prefix, u16>,
    /// The tunnels.
    pub tunnels: Table<u16, Tunnel>,
    /// The bypasses.
    pub bypasses: Table<u16, Bypass>,
}

/// Static routes, tunnels and bypasses, by how a bypass is spelled.
pub struct NodeStateField<B> {
    kind: PhantomData<B>,
}

/// The parts of [`NodeState`].
type NodeStateParts<B> = Pair<RouteTable, Pair<TunnelTable, BypassTable<B>>>;

/// The parts of [`NodeState`].
type NodeStateValue = (Table<Prefix, u16>, (Table<u16, Tunnel>, Table<u16, Bypass>));

/// What is known, of these.
fn node_of(parts: NodeStateValue) -> NodeState
    ensures { node_state_parts result ≡ parts }
{
    let (routes, (tunnels, bypasses)) = parts;
    NodeState {
        routes,
        tunnels,
        bypasses,
    }
}

impl<B: Field<Value = Bypass>> Field for NodeStateField<B> {
    ghost use Rattle.journal_files.specs.Fitting.{NodeStateFits};
    ghost use Rattle.journal_files.specs.FileLaws.{one_node_state};
    ghost use Rattle.journal_files.specs.States.{node_state_bytes};

    type Value = NodeState;

    ghost Fits = { NodeStateFits B.Fits };

    ghost spelling = { node_state_bytes B.spelling };

    ghost one = { one_node_state B.Fits B.spelling B.one };

    fn read(alloc: Global, bytes: &[u8]) -> Result<(NodeState, &[u8]), ReadFault> {
        let (parts, rest) = <NodeStateParts<B> as Field>::read(alloc, bytes)?;
        Ok((node_of(parts), rest))
    }
}

/// What a router knows of LSPs.
#[derive(Debug, Drop)]
pub struct LspState {
    /// Their paths.
    pub paths: Table<Key, PathFact>,
    /// Their reservations.
    pub resvs: Table<Key, ResvFact>,
    /// Their repairs.
    pub repairs: Table<Key, Repair>,
    /// What they are promised of the bandwidth of bypasses.
    pub promises: Table<Key, Assignment>,
}

/// Paths, reservations, repairs and promises, by how promises are spelled.
pub struct LspStateField<G> {
    kind: PhantomData<G>,
}

/// The parts of [`LspState`].
type LspStateParts<G> = Pair<PathTable, Pair<ResvTable, Pair<RepairTable, G>>>;

/// The parts of [`LspState`].
type LspStateValue = (
    Table<Key, PathFact>,
    (
        Table<Key, ResvFact>,
        (Table<Key, Repair>, Table<Key, Assignment>),
    ),
);

/// What is known, of these.
fn lsps_of(parts: LspStateValue) -> LspState
    ensures { lsp_state_parts result ≡ parts }
{
    let (paths, (resvs, (repairs, promises))) = parts;
    LspState {
        paths,
        resvs,
        repairs,
        promises,
    }
}

impl<G: Field<Value = Table<Key, Assignment>>> Field for LspStateField<G> {
    ghost use Rattle.journal_files.specs.Fitting.{LspStateFits};
    ghost use Rattle.journal_files.specs.FileLaws.{one_lsp_state};
    ghost use Rattle.journal_files.specs.States.{lsp_state_bytes};

    type Value = LspState;

    ghost Fits = { LspStateFits G.Fits };

    ghost spelling = { lsp_state_bytes G.spelling };

    ghost one = { one_lsp_state G.Fits G.spelling G.one };

    fn read(alloc: Global, bytes: &[u8]) -> Result<(LspState, &[u8]), ReadFault> {
        let (parts, rest) = <LspStateParts<G> as Field>::read(alloc, bytes)?;
        Ok((lsps_of(parts), rest))
    }
}

/// What a router knows of labels, and of what it keeps alive.
#[derive(Debug, Drop)]
pub struct LabelState {
    /// The labels of LSPs.
    pub labels: Table<Key, u32>,
    /// The labels that rest.
    pub resting: Table<u32, u64>,
    /// When it sent what it keeps alive.
    pub sent: Sent,
}

/// Labels, labels that rest, and what is kept alive, by how labels that rest are spelled.
pub struct LabelStateField<Z> {
    kind: PhantomData<Z>,
}

/// The parts of [`LabelState`].
type LabelStateParts<Z> = Pair<LabelTable, Pair<Z, SentField>>;

/// The parts of [`LabelState`].
type LabelStateValue = (Table<Key, u32>, (Table<u32, u64>, Sent));

/// What is known, of these.
fn labels_of(parts: LabelStateValue) -> LabelState
    ensures { label_state_parts result ≡ parts }
{
    let (labels, (resting, sent)) = parts;
    LabelState {
        labels,
        resting,
        sent,
    }
}

impl<Z: Field<Value = Table<u32, u64>>> Field for LabelStateField<Z> {
    ghost use Rattle.journal_files.specs.Fitting.{LabelStateFits};
    ghost use Rattle.journal_files.specs.FileLaws.{one_label_state};
    ghost use Rattle.journal_files.specs.States.{label_state_bytes};

    type Value = LabelState;

    ghost Fits = { LabelStateFits Z.Fits };

    ghost spelling = { label_state_bytes Z.spelling };

    ghost one = { one_label_state Z.Fits Z.spelling Z.one };

    fn read(alloc: Global, bytes: &[u8]) -> Result<(LabelState, &[u8]), ReadFault> {
        let (parts, rest) = <LabelStateParts<Z> as Field>::read(alloc, bytes)?;
        Ok((labels_of(parts), rest))
    }
}

/// What a router knows: of itself and of its links, what it was told to do, of LSPs, and of labels; by how bypasses, promises and labels that
/// rest are spelled.
pub struct StateField<B, G, Z> {
    kinds: PhantomData<(B, G, Z)>,
}

/// The parts of a state.
type StateParts<B, G, Z> = Pair<
    LinkStateField,
    Pair<NodeStateField<B>, Pair<LspStateField<G>, LabelStateField<Z>>>,
>;

/// The parts of a state.
type StateValue = (LinkState, (NodeState, (LspState, LabelState)));

/// What a router knows, of these parts.
fn state_of(parts: StateValue) -> State
    ensures { state_parts result ≡ parts }
{
    let (links, (node, (lsps, labels))) = parts;
    let sent = labels.sent;
    let facts = Facts {
        cold: links.cold,
        moment: links.moment,
        up: links.up,
        routes: node.routes,
        tunnels: node.tunnels,
        bypasses: node.bypasses,
        paths: lsps.paths,
        sent: sent.paths,
    };
    State {
        facts,
        resvs: lsps.resvs,
        repairs: lsps.repairs,
        labels: labels.labels,
        assignments: lsps.promises,
        resting: labels.resting,
        sent_upstream: sent.resvs,
    }
}

impl<
    B: Field<Value = Bypass>,
    G: Field<Value = Table<Key, Assignment>>,
    Z: Field<Value = Table<u32, u64>>,
> Field for StateField<B, G, Z> {
    ghost use Rattle.journal_files.specs.Fitting.{StateFits};
    ghost use Rattle.journal_files.specs.FileLaws.{one_state};
    ghost use Rattle.journal_files.specs.States.{state_bytes};

    type Value = State;

    ghost Fits = { StateFits B.Fits G.Fits Z.Fits };

    ghost spelling = { state_bytes B.spelling G.spelling Z.spelling };

    ghost one = { one_state B.Fits B.spelling G.Fits G.spelling Z.Fits Z.spelling B.one G.one Z.one };

    fn read(alloc: Global, bytes: &[u8]) -> Result<(State, &[u8]), ReadFault> {
        let (parts, rest) = <StateParts<B, G, Z> as Field>::read(alloc, bytes)?;
        Ok((state_of(parts), rest))
    }
}
