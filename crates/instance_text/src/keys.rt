//! Which keys a table may have.

ghost use Rattle.std.specs.Prelude.{◌≡◌, IsTrue, false, map, OnOk, IfErr};
ghost use Rattle.toml.specs.View.{table_view};
ghost use Rattle.instance_text.specs.Keys.{text_of};
ghost use Rattle.instance_text.specs.Tables.{keys_at, has_key, has_only};
ghost use Rattle.instance_text.specs.declared.error.TextError.TheVariants.{UnknownKey};

use crate::error::{Key, Place, TextError};
use toml::Table;

/// The keys of such a table, in the order of checks.
pub fn keys_at(place: Place) -> &'static [Key]
    ensures { result.now ≡ keys_at place }
{
    match place {
        Place::Top => &[
            Key::Cluster,
            Key::Node,
            Key::Process,
            Key::Link,
            Key::Message,
        ],
        Place::Cluster => &[
            Key::Precision,
            Key::Lead,
            Key::Trail,
            Key::Head,
            Key::PerByte,
            Key::CopyOut,
            Key::CopyIn,
            Key::Horizon,
            Key::Channels,
        ],
        Place::Node(_) => &[Key::Name, Key::Capacities],
        Place::Process(_) => &[Key::Name, Key::Node, Key::Wcet, Key::Release, Key::Deadline],
        Place::Link(_) => &[Key::From, Key::To],
        Place::Message(_) => &[Key::Name, Key::From, Key::To, Key::Bytes, Key::Both],
    }
}

/// Whether one of the keys is spelled so.
pub fn has_key(keys: &[Key], text: &str) -> bool
    ensures { result ≡ has_key keys.now text.now }
{
    keys.iter().any(|key| key.text() == text)
}

/// Refuses a table with a key that such a table doesn't have.
pub fn judge(table: &Table, place: Place) -> Result<(), TextError>
    ensures ok { OnOk result (IsTrue (has_only (keys_at place) (table_view table.now))) }
    ensures unknown { IfErr result (λ e. has_only (keys_at place) (table_view table.now) ≡ false) }
    ensures err { IfErr result (λ e. e ≡ UnknownKey place) }
{
    let keys = keys_at(place);
    for text in table.keys() {
        if !has_key(keys, text.as_str()) {
            return Err(TextError::UnknownKey { place });
        }
    }
    Ok(())
}
