// Values of a configuration: what each says, or `None` where it isn't of its kind.
ghost use Rattle.std.specs.Prelude.{◌≡◌, ◌≤◌, pos, List, map, Some, is_some, true, false, IfSome, MatchOption};
ghost use Rattle.std.specs.List.{list_all};
ghost use Rattle.toml.specs.Data.{Data, integer, array, as_table};
ghost use Rattle.toml.specs.View.{view, items_view};
ghost use Rattle.rsvp_bodies.specs.Finding.{Finds};
ghost use Rattle.lsr_config.specs.Documents.{array_elements};
ghost use Rattle.lsr_config.specs.Values.{IsMaskedPrefixText, SaysAddress, SaysSocket, SaysWhole, SaysFlag, SaysLabels, SaysPrefix, SaysTables};

use lsr_facts::limits::MAX_LABELS;
use lsr_facts::{LabelRange, masked};
use rsvp_bodies::{Prefix, read_prefix};
use std::net::{Ipv4Addr, SocketAddr};
use toml::Value;

/// The least and the greatest label that a router gives out (RFC 3032, 2.1).
const FIRST_LABEL: u64 = 16;

const LAST_LABEL: u64 = 1_048_575;

/// The greatest length of a prefix, that of one address.
pub(crate) const WHOLE_ADDRESS: u8 = 32;

/// The IPv4 address that the value writes.
pub(crate) fn address_in(value: &Value) -> Option<Ipv4Addr>
    ensures { Finds (SaysAddress (view value.now)) result }
{
    value.as_str()?.parse().ok()
}

/// The socket address that the value writes.
pub(crate) fn socket_in(value: &Value) -> Option<SocketAddr>
    ensures { Finds (SaysSocket (view value.now)) result }
{
    value.as_str()?.parse().ok()
}

/// The whole number that the value is, from `least` to `most`.
pub(crate) fn whole_in(value: &Value, least: u64, most: u64) -> Option<u64>
    ensures found { Finds (SaysWhole least most (view value.now)) result }
    ensures bound { IfSome result (λ n. n ≤ most) }
{
    let number = natural_in(value)?;
    if number < least || number > most {
        return None;
    }
    Some(number)
}

/// The whole number that the value is, where it isn't below 0.
fn natural_in(value: &Value) -> Option<u64>
    ensures { Finds (λ n. view value.now ≡ integer (pos n)) result }
{
    u64::try_from(value.as_integer()?).ok()
}

/// The truth value that the value is.
pub(crate) fn flag_in(value: &Value) -> Option<bool>
    ensures { Finds (SaysFlag (view value.now)) result }
{
    value.as_bool()
}

/// The labels whose first and last the value lists.
pub(crate) fn labels_in(value: &Value) -> Option<LabelRange>
    ensures { Finds (SaysLabels (view value.now)) result }
{
    range_of(value.as_array()?.as_slice())
}

/// The labels of which these are the first and the last.
fn range_of(ends: &[Value]) -> Option<LabelRange>
    ensures { Finds (SaysLabels (array (items_view ends.now))) result }
{
    let [first, last] = ends else {
        return None;
    };
    let first = whole_in(first, FIRST_LABEL, LAST_LABEL)? as u32;
    let last = whole_in(last, FIRST_LABEL, LAST_LABEL)? as u32;
    if first > last || last - first >= MAX_LABELS {
        return None;
    }
    Some(LabelRange { first, last })
}

/// The prefix that the value writes. Bits of its address past its length are set to 0.
pub(crate) fn prefix_in(value: &Value) -> Option<Prefix>
    ensures { Finds (SaysPrefix (view value.now)) result }
{
    prefix_of(value.as_str()?)
}

/// The prefix that the text writes.
fn prefix_of(text: &str) -> Option<Prefix>
    ensures { Finds (IsMaskedPrefixText text.now) result }
{
    let Prefix { address, length } = read_prefix(text)?;
    if length > WHOLE_ADDRESS {
        return None;
    }
    Some(Prefix {
        address: masked(address, length),
        length,
    })
}

/// The values of an array, none where the value is no array.
pub(crate) fn items_in(value: &Value) -> &[Value]
    ensures { map view result.now ≡ array_elements (Some (view value.now)) }
{
    match value.as_array() {
        Some(array) => array.as_slice(),
        None => &[],
    }
}

/// The tables that the value lists.
pub(crate) fn tables_in(value: &Value) -> Option<&[Value]>
    ensures { MatchOption result
        ((tables : List Data) → ¬ SaysTables (view value.now) tables)
        (λ tables. SaysTables (view value.now) (map view tables.now)) }
{
    only_tables(value.as_array()?.as_slice())
}

/// The values, where they are all tables.
fn only_tables(values: &[Value]) -> Option<&[Value]>
    ensures { MatchOption result
        (list_all (λ value. is_some (as_table (view value))) values.now ≡ false)
        (λ tables. (list_all (λ value. is_some (as_table (view value))) values.now ≡ true) × (tables.now ≡ values.now)) }
{
    if are_tables(values) {
        Some(values)
    } else {
        None
    }
}

/// Whether the values are all tables.
fn are_tables(values: &[Value]) -> bool
    ensures { result ≡ list_all (λ value. is_some (as_table (view value))) values.now }
{
    values.iter().all(|value| value.is_table())
}
