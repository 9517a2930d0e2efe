//! What is told of a fault of a text?

ghost use Rattle.std.specs.Prelude.{◌≡◌, ℕ, IfOk, List, Some, codes, option_map, pos};
ghost use Rattle.std.specs.Borrow.{Bor};
ghost use Rattle.toml.specs.Data.{Data, array, integer, item, member, no_items, no_members, string, table};
ghost use Rattle.toml.specs.View.{table_view};
ghost use Rattle.instance_reasons.specs.declared.near.NearName.TheVariants.{Meant};
ghost use Rattle.instance_reasons.specs.declared.texts.OddKey.{OddKey};
ghost use Rattle.instance_reasons.specs.declared.texts.OddName.{OddName};
ghost use Rattle.instance_reasons.specs.declared.texts.TextReason.TheVariants as reason;
ghost use Rattle.instance_reasons.specs.declared.texts.UnfitNumber.{UnfitNumber};
ghost use Rattle.instance_reasons.specs.declared.texts.WrongKind.{WrongKind};
ghost use Rattle.instance_reasons.specs.declared.values.Found.TheVariants.{Item};
ghost use Rattle.instance_reasons.specs.declared.values.Kind.TheVariants as kind;
ghost use Rattle.instance_reasons.specs.declared.values.Shape.TheVariants.{Many};

use instance_reasons::{TextReason, text_reason};
use instance_text::{Key, Place, TextError};
use std::alloc::{AllocError, Global};
use toml::Table;

/// A number that is one more than the largest doesn't fit.
pub fn number_past_the_largest_is_told(
    alloc: Global,
    top: &Table,
) -> Result<TextReason<'_>, AllocError>
    ensures { table_view top.now ≡ member (codes "cluster") (table (member (codes "horizon") (integer (pos 4294967296)) no_members)) no_members
        → IfOk result (λ told. (r : UnfitNumber) → told ≡ reason.UnfitNumber r → r.number ≡ Some (pos 4294967296)) }
{
    let (place, key) = (Place::Cluster, Key::Horizon);
    text_reason(alloc, top, &TextError::OutOfRange { place, key })
}

/// Of a list with an item of a wrong kind that item is told.
pub fn item_of_a_list_is_told(alloc: Global, top: &Table) -> Result<TextReason<'_>, AllocError>
    ensures { table_view top.now ≡ member (codes "node") (array (item (table (member (codes "capacities")
        (array (item (integer (pos 8)) (item (string (codes "x")) no_items))) no_members)) no_items)) no_members
        → IfOk result (λ told. (r : WrongKind) → told ≡ reason.WrongKind r → (r.found ≡ Some (Item kind.Text)) × (r.wanted ≡ Many kind.Number)) }
{
    let (place, key) = (Place::Node(0), Key::Capacities);
    text_reason(alloc, top, &TextError::WrongKind { place, key })
}

/// A key that can't stand there is told, and none that can.
pub fn key_that_is_odd_is_told(alloc: Global, top: &Table) -> Result<TextReason<'_>, AllocError>
    ensures { (d e : Data) → table_view top.now ≡ member (codes "cluster") d (member (codes "nodes") e no_members)
        → IfOk result (λ told. (r : OddKey) → told ≡ reason.OddKey r
        → (option_map (λ s. s.now) r.key ≡ Some (codes "nodes")) × (option_map (λ s. s.now) r.near ≡ Some (codes "node"))) }
{
    let place = Place::Top;
    text_reason(alloc, top, &TextError::UnknownKey { place })
}

/// Of two names that nothing has the first in byte order is told.
pub fn first_name_in_byte_order_is_told(
    alloc: Global,
    top: &Table,
) -> Result<TextReason<'_>, AllocError>
    ensures { table_view top.now ≡ member (codes "message") (array (item (table (member (codes "to")
        (array (item (string (codes "b")) (item (string (codes "a")) no_items))) no_members)) no_items)) no_members
        → IfOk result (λ told. (r : OddName) → told ≡ reason.OddName r → option_map (λ s. s.now) r.name ≡ Some (codes "a")) }
{
    let (place, key) = (Place::Message(0), Key::To);
    text_reason(alloc, top, &TextError::UnknownName { place, key })
}

/// A process names its node, and no process.
pub fn node_of_a_process_is_told(alloc: Global, top: &Table) -> Result<TextReason<'_>, AllocError>
    ensures { table_view top.now ≡ member (codes "process") (array (item (table
        (member (codes "name") (string (codes "p")) (member (codes "node") (string (codes "p")) no_members))) no_items)) no_members
        → IfOk result (λ told. (r : OddName) → told ≡ reason.OddName r
        → (r.list.now ≡ codes "node") × (option_map (λ s. s.now) r.name ≡ Some (codes "p"))) }
{
    let (place, key) = (Place::Process(0), Key::Node);
    text_reason(alloc, top, &TextError::UnknownName { place, key })
}

/// Of two names that are near the one that is one character away is meant, where it stands behind the other.
pub fn nearer_name_is_meant(alloc: Global, top: &Table) -> Result<TextReason<'_>, AllocError>
    ensures { table_view top.now ≡ member (codes "link") (array (item (table
        (member (codes "from") (string (codes "ab")) no_members)) no_items)) (member (codes "process")
        (array (item (table (member (codes "name") (string (codes "abcd")) no_members))
        (item (table (member (codes "name") (string (codes "abc")) no_members)) no_items))) no_members)
        → IfOk result (λ told. (r : OddName) (x : Bor (List ℕ)) → told ≡ reason.OddName r → r.near ≡ Some (Meant x) → x.now ≡ codes "abc") }
{
    let (place, key) = (Place::Link(0), Key::From);
    text_reason(alloc, top, &TextError::UnknownName { place, key })
}
