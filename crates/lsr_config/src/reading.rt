// Values of tables: each is looked for under its key, and the first rule that isn't kept is the fault.
ghost use Rattle.std.specs.Prelude.{◌≡◌, ◌≤◌, List, length, Some, None, [], ◌∷◌, map, option_map, IfOk, MatchResult};
ghost use Rattle.toml.specs.Data.{Data, get};
ghost use Rattle.toml.specs.View.{view};
ghost use Rattle.lsr_config.specs.Keys.{key_name};
ghost use Rattle.lsr_config.specs.Values.{SaysWhole, SaysFlag, SaysLabels, SaysSocket, SaysSteps, SaysRate, SaysName};
ghost use Rattle.lsr_config.specs.Rules.{an_address, a_socket, a_whole, a_flag, some_labels, a_prefix, some_tables, some_steps, a_rate, a_name, Has, HasOr, HasAddress, HasNumber, HasPrefix, few};
ghost use Rattle.lsr_config.specs.Documents.{needed, optional, records};
ghost use Rattle.lsr_config.specs.Reading.{Judges};
ghost use Rattle.lsr_config.specs.declared.fault.ConfigFault.TheVariants as fault;

use crate::fault::ConfigFault;
use crate::key::Key;
use crate::tunnel_values::{name_in, rate_in, steps_in};
use crate::values::{
    address_in, flag_in, items_in, labels_in, prefix_in, socket_in, tables_in, whole_in,
};
use lsr_facts::LabelRange;
use rsvp_bodies::{Name, Prefix, RateWord, Route};
use std::alloc::Global;
use std::net::{Ipv4Addr, SocketAddr};
use toml::Value;

/// The greatest number of a link, of a tunnel or of a bypass.
const LAST_NUMBER: u64 = 65_535;

/// The value under a key of a table.
fn value_at<'a>(table: &'a Value, key: Key) -> Option<&'a Value>
    ensures { option_map (λ value. view value.now) result ≡ get (key_name key) (view table.now) }
{
    table.get(key.name())
}

/// The value under a key that the table has to have.
fn needed(table: &Value, key: Key) -> Result<&Value, ConfigFault>
    ensures { MatchResult result
        (λ value. get (key_name key) (view table.now) ≡ Some (view value.now))
        (λ f. (get (key_name key) (view table.now) ≡ None) × (f ≡ fault.Missing key)) }
{
    match value_at(table, key) {
        Some(value) => Ok(value),
        None => Err(ConfigFault::Missing(key)),
    }
}

/// What the value under a key says, where it is of its kind.
fn said<T: Drop>(found: Option<T>, key: Key) -> Result<T, ConfigFault>
    ensures { MatchResult result (λ value. found ≡ Some value) (λ f. (found ≡ None) × (f ≡ fault.BadValue key)) }
{
    match found {
        Some(value) => Ok(value),
        None => Err(ConfigFault::BadValue(key)),
    }
}

/// The address that the table gives a key.
pub(crate) fn address_at(table: &Value, key: Key) -> Result<Ipv4Addr, ConfigFault>
    ensures { Judges (needed an_address key (view table.now)) (HasAddress key (view table.now)) result }
{
    let value = needed(table, key)?;
    said(address_in(value), key)
}

/// The socket address that the table gives a key.
pub fn socket_at(table: &Value, key: Key) -> Result<SocketAddr, ConfigFault>
    ensures { Judges (needed a_socket key (view table.now))
        (λ address. Has key (view table.now) (λ v. SaysSocket v address)) result }
{
    let value = needed(table, key)?;
    said(socket_in(value), key)
}

/// The whole number, from `least` to `most`, that the table gives a key.
pub(crate) fn whole_at(table: &Value, key: Key, least: u64, most: u64) -> Result<u64, ConfigFault>
    ensures judged { Judges (needed (a_whole least most) key (view table.now))
        (λ n. Has key (view table.now) (λ v. SaysWhole least most v n)) result }
    ensures bound { IfOk result (λ n. n ≤ most) }
{
    let value = needed(table, key)?;
    said(whole_in(value, least, most), key)
}

/// The number of 16 bits, from the first, that the table gives a key.
pub fn number_at(table: &Value, key: Key, first: u64) -> Result<u16, ConfigFault>
    ensures { Judges (needed (a_whole first 65535) key (view table.now)) (HasNumber first key (view table.now)) result }
{
    let number = whole_at(table, key, first, LAST_NUMBER)?;
    Ok(number as u16)
}

/// The number, from 0 to `most`, that the table gives a key.
pub(crate) fn byte_at(table: &Value, key: Key, most: u8) -> Result<u8, ConfigFault>
    ensures { Judges (needed (a_whole 0 most) key (view table.now))
        (λ n. Has key (view table.now) (λ v. SaysWhole 0 most v n)) result }
{
    let number = whole_at(table, key, 0, u64::from(most))?;
    Ok(number as u8)
}

/// The labels that the table gives a key.
pub(crate) fn labels_at(table: &Value, key: Key) -> Result<LabelRange, ConfigFault>
    ensures { Judges (needed some_labels key (view table.now))
        (λ labels. Has key (view table.now) (λ v. SaysLabels v labels)) result }
{
    let value = needed(table, key)?;
    said(labels_in(value), key)
}

/// The prefix that the table gives a key.
pub(crate) fn prefix_at(table: &Value, key: Key) -> Result<Prefix, ConfigFault>
    ensures { Judges (needed a_prefix key (view table.now)) (HasPrefix key (view table.now)) result }
{
    let value = needed(table, key)?;
    said(prefix_in(value), key)
}

/// The steps that the table gives a key.
pub(crate) fn steps_at(alloc: Global, table: &Value, key: Key) -> Result<Route, ConfigFault>
    ensures { Judges (needed some_steps key (view table.now))
        (λ steps. Has key (view table.now) (λ v. SaysSteps v steps)) result }
{
    let value = needed(table, key)?;
    let steps = steps_in(alloc, value)?;
    said(steps, key)
}

/// The rate that the table gives a key.
pub(crate) fn rate_at(table: &Value, key: Key) -> Result<RateWord, ConfigFault>
    ensures { Judges (needed a_rate key (view table.now))
        (λ rate. Has key (view table.now) (λ v. SaysRate v rate)) result }
{
    let value = needed(table, key)?;
    said(rate_in(value), key)
}

/// The name that the table gives a key.
pub(crate) fn name_at(alloc: Global, table: &Value, key: Key) -> Result<Name, ConfigFault>
    ensures { Judges (needed a_name key (view table.now))
        (λ name. Has key (view table.now) (λ v. SaysName v name)) result }
{
    let value = needed(table, key)?;
    let name = name_in(alloc, value)?;
    said(name, key)
}

/// The whole number, from `least` to `most`, that the table gives a key, or the default where it gives none.
pub(crate) fn whole_or(
    table: &Value,
    key: Key,
    least: u64,
    most: u64,
    default: u64,
) -> Result<u64, ConfigFault>
    requires { default ≤ most }
    ensures judged { Judges (optional (a_whole least most) key (view table.now))
        (λ n. HasOr key (view table.now) (n ≡ default) (λ v. SaysWhole least most v n)) result }
    ensures bound { IfOk result (λ n. n ≤ most) }
{
    match value_at(table, key) {
        Some(value) => said(whole_in(value, least, most), key),
        None => Ok(default),
    }
}

/// The truth value that the table gives a key, or the default where it gives none.
pub(crate) fn flag_or(table: &Value, key: Key, default: bool) -> Result<bool, ConfigFault>
    ensures { Judges (optional a_flag key (view table.now))
        (λ b. HasOr key (view table.now) (b ≡ default) (λ v. SaysFlag v b)) result }
{
    match value_at(table, key) {
        Some(value) => said(flag_in(value), key),
        None => Ok(default),
    }
}

/// Whether what the table gives a key, if it gives anything, is a socket address.
pub(crate) fn check_socket(table: &Value, key: Key) -> Result<(), ConfigFault>
    ensures { Judges (optional a_socket key (view table.now)) (λ _. Unit {0}) result }
{
    let Some(value) = value_at(table, key) else {
        return Ok(());
    };
    said(socket_in(value), key)?;
    Ok(())
}

/// The records of a table of the document, in the order of the text.
pub(crate) fn records_of(document: &Value, key: Key) -> Result<&[Value], ConfigFault>
    ensures { Judges (optional some_tables key (view document.now))
        (λ found. map view found.now ≡ records key (view document.now)) result }
{
    match value_at(document, key) {
        Some(value) => said(tables_in(value), key),
        None => Ok(&[]),
    }
}

/// What stands under a key of the document in place of records, none where no array does.
pub fn records_at<'a>(document: &'a Value, key: Key) -> &'a [Value]
    ensures { map view result.now ≡ records key (view document.now) }
{
    match value_at(document, key) {
        Some(value) => items_in(value),
        None => &[],
    }
}

/// Refuses a record after so many others that its table has room for no more.
pub(crate) fn check_count(key: Key, most: usize, count: usize) -> Result<(), ConfigFault>
    ensures { (before : List Data) → length before ≡ count → Judges (few key most before ∷ []) (λ _. Unit {0}) result }
{
    if count >= most {
        return Err(ConfigFault::TooMany(key));
    }
    Ok(())
}
