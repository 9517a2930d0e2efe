//! What do the lines behind the order state, and of which parts?

ghost use Rattle.std.specs.Prelude.{◌≡◌};
ghost use Rattle.plan_format.specs.Names.{part_of, keyword_of};

use ttp_model::Part;

/// What a line behind the order states.
#[derive(Clone, Copy, PartialEq, Eq)]
pub enum Column {
    /// The capacity of a node's frame.
    Capacity,
    /// When a process starts.
    Start,
    /// In which round a message is sent.
    Round,
    /// On which channel a message is sent.
    Channel,
}

/// The list of the parts that such lines name.
pub fn part_of(column: Column) -> Part
    ensures { result ≡ part_of column }
{
    match column {
        Column::Capacity => Part::Nodes,
        Column::Start => Part::Processes,
        Column::Round | Column::Channel => Part::Messages,
    }
}

/// What each of them begins with.
pub fn keyword_of(column: Column) -> &'static [u8]
    ensures { result.now ≡ keyword_of column }
{
    match column {
        Column::Capacity => b"cap ",
        Column::Start => b"start ",
        Column::Round => b"round ",
        Column::Channel => b"chan ",
    }
}
