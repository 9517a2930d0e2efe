//! Which keys a table may have.

ghost use Rattle.std.specs.Prelude.{◌≡◌, IsTrue, false, map, OnOk, IfErr};
ghost use Rattle.toml.specs.View.{table_view};
ghost use Rattle.rates_text.specs.Keys.{text_of};
ghost use Rattle.rates_text.specs.Tables.{keys_at, has_key, has_only};
ghost use Rattle.rates_text.specs.declared.error.RatesTextError.TheVariants.{UnknownKey};

use crate::error::{RatesKey, RatesTable, RatesTextError};
use instance_text::Place;
use toml::Table;

/// The keys of such a table, in the order of checks.
pub fn keys_at(place: RatesTable) -> &'static [RatesKey]
    ensures { result.now ≡ keys_at place }
{
    match place {
        RatesTable::Of(Place::Top) => &[
            RatesKey::Cluster,
            RatesKey::Node,
            RatesKey::Process,
            RatesKey::Link,
            RatesKey::Message,
            RatesKey::Chain,
        ],
        RatesTable::Of(Place::Cluster) => &[
            RatesKey::Precision,
            RatesKey::Lead,
            RatesKey::Trail,
            RatesKey::Head,
            RatesKey::PerByte,
            RatesKey::CopyOut,
            RatesKey::CopyIn,
            RatesKey::Channels,
            RatesKey::Store,
            RatesKey::Round,
        ],
        RatesTable::Of(Place::Node(_)) => &[RatesKey::Name, RatesKey::Capacity],
        RatesTable::Of(Place::Process(_)) => &[
            RatesKey::Name,
            RatesKey::Node,
            RatesKey::Wcet,
            RatesKey::Period,
            RatesKey::Release,
            RatesKey::Deadline,
        ],
        RatesTable::Of(Place::Link(_)) => &[RatesKey::From, RatesKey::To, RatesKey::Delay],
        RatesTable::Of(Place::Message(_)) => &[
            RatesKey::Name,
            RatesKey::From,
            RatesKey::To,
            RatesKey::Bytes,
            RatesKey::Both,
            RatesKey::Delay,
        ],
        RatesTable::Chain(_) => &[RatesKey::Name, RatesKey::Through, RatesKey::Age],
    }
}

/// Whether one of the keys is spelled so.
pub fn has_key(keys: &[RatesKey], text: &str) -> bool
    ensures { result ≡ has_key keys.now text.now }
{
    keys.iter().any(|key| key.text() == text)
}

/// Refuses a table with a key that such a table doesn't have.
pub fn judge(table: &Table, place: RatesTable) -> Result<(), RatesTextError>
    ensures ok { OnOk result (IsTrue (has_only (keys_at place) (table_view table.now))) }
    ensures unknown { IfErr result (λ e. has_only (keys_at place) (table_view table.now) ≡ false) }
    ensures err { IfErr result (λ e. e ≡ UnknownKey place) }
{
    let keys = keys_at(place);
    for text in table.keys() {
        if !has_key(keys, text.as_str()) {
            return Err(RatesTextError::UnknownKey { place });
        }
    }
    Ok(())
}
