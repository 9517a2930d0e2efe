//! What has to stand at a key, and in which list are names looked for?

ghost use Rattle.std.specs.Prelude.{◌≡◌};
ghost use Rattle.rates_command.specs.Wanted.{wanted, wanted_node, wanted_to};

use instance_reasons::{Kind, Shape};
use rates_text::{RatesKey, RatesTable};

/// What has to stand at the key `node`.
fn wanted_node(place: RatesTable) -> Shape
    ensures { result ≡ wanted_node place }
{
    match place {
        RatesTable::Of(place) => instance_reasons::wanted_node(place),
        RatesTable::Chain(_) => Shape::Many(Kind::Table),
    }
}

/// What has to stand at the key `to`.
fn wanted_to(place: RatesTable) -> Shape
    ensures { result ≡ wanted_to place }
{
    match place {
        RatesTable::Of(place) => instance_reasons::wanted_to(place),
        RatesTable::Chain(_) => Shape::One(Kind::Text),
    }
}

/// What has to stand at a key.
pub fn wanted(place: RatesTable, key: RatesKey) -> Shape
    ensures { result ≡ wanted place key }
{
    match key {
        RatesKey::Cluster => Shape::One(Kind::Table),
        RatesKey::Node => wanted_node(place),
        RatesKey::Process | RatesKey::Link | RatesKey::Message | RatesKey::Chain => {
            Shape::Many(Kind::Table)
        }
        RatesKey::Name | RatesKey::From => Shape::One(Kind::Text),
        RatesKey::To => wanted_to(place),
        RatesKey::Through => Shape::Many(Kind::Text),
        RatesKey::Both => Shape::One(Kind::Truth),
        RatesKey::Precision
        | RatesKey::Lead
        | RatesKey::Trail
        | RatesKey::Head
        | RatesKey::PerByte
        | RatesKey::CopyOut
        | RatesKey::CopyIn
        | RatesKey::Channels
        | RatesKey::Store
        | RatesKey::Round
        | RatesKey::Capacity
        | RatesKey::Wcet
        | RatesKey::Period
        | RatesKey::Release
        | RatesKey::Deadline
        | RatesKey::Delay
        | RatesKey::Bytes
        | RatesKey::Age => Shape::One(Kind::Number),
    }
}
