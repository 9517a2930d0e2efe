//! Which members tell why a step isn't lawful?

use crate::members::{Row, row_of, write_row, write_word};
use certificate_reasons::{
    Absent, Lacking, LoadLack, MoveLack, NoPart, OrderLack, Refusal, TimeLack,
};
use serde::Serializer;
use ttp_model::Part;

/// What one of them is called.
fn part_word(part: Part) -> &'static str {
    match part {
        Part::Nodes => "node",
        Part::Processes => "process",
        Part::Links => "link",
        Part::Messages => "message",
    }
}

/// A node, process, link or message that isn't there.
pub fn no_part_row(lacking: NoPart) -> Row<'static> {
    let NoPart { part, index, count } = lacking;
    row_of!("no_part", part: part_word(part), #index, #count)
}

/// What that it names isn't there.
fn absent_row<'a>(reason: &Absent<'a>) -> Row<'a> {
    match *reason {
        Absent::Part(part) => no_part_row(part),
        Absent::Pair { process, other } => row_of!("no_pair", process, other),
        Absent::Receiver { message, process } => row_of!("no_receiver", message, process),
        Absent::Half { channel, channels } => row_of!("no_half", #channel, #channels),
    }
}

/// Which order isn't known.
fn order_row<'a>(reason: &OrderLack<'a>) -> Row<'a> {
    match *reason {
        OrderLack::NotFirst { process, other } => row_of!("not_first", process, other),
        OrderLack::InTime {
            process,
            other,
            end,
            most,
        } => row_of!("in_time", process, other, #end, #most),
        OrderLack::NotTwins { process, other } => row_of!("not_twins", process, other),
    }
}

/// Which times and rounds are left.
fn time_row<'a>(reason: &TimeLack<'a>) -> Row<'a> {
    match *reason {
        TimeLack::NoRound { message } => row_of!("no_round", message),
        TimeLack::Window {
            process,
            least,
            most,
        } => row_of!("window", process, #least, #most),
        TimeLack::Rounds {
            message,
            least,
            late,
        } => row_of!("rounds", message, #least, #late),
    }
}

/// That a load isn't too large.
fn load_row<'a>(reason: &LoadLack<'a>) -> Row<'a> {
    match *reason {
        LoadLack::Turned { from, until, by } => row_of!("turned", #from, #until, #by),
        LoadLack::Load {
            node,
            from,
            until,
            load,
            ticks,
        } => row_of!("load", node, #from, #until, #load, #ticks),
        LoadLack::Frame {
            message,
            bytes,
            node,
            most,
        } => row_of!("frame", message, #bytes, node, #most),
        LoadLack::Frames {
            node,
            from,
            before,
            bytes,
            room,
        } => row_of!("frames", node, #from, #before, #bytes, #room),
        LoadLack::Halves {
            channel,
            node,
            from,
            before,
            bytes,
            room,
        } => row_of!("halves", #channel, node, #from, #before, #bytes, #room),
    }
}

/// Which move isn't known to serve.
fn move_row<'a>(reason: &MoveLack<'a>) -> Row<'a> {
    match *reason {
        MoveLack::NotBefore {
            message,
            round,
            least,
        } => row_of!("not_before", message, #round, #least),
        MoveLack::NotReady {
            message,
            ready,
            node,
            round,
            start,
            by,
        } => row_of!("not_ready", message, #ready, node, #round, #start, #by),
        MoveLack::NoRoom {
            message,
            node,
            round,
            bytes,
            most,
            by,
        } => row_of!("no_room", message, node, #round, #bytes, #most, #by),
        MoveLack::NotTurned { node, other } => row_of!("not_turned", node, other),
        MoveLack::NotMirrored { message } => row_of!("not_mirrored", message),
    }
}

/// What that it asks for isn't known.
fn lacking_row<'a>(lacking: &Lacking<'a>) -> Row<'a> {
    match lacking {
        Lacking::Order(lack) => order_row(lack),
        Lacking::Time(lack) => time_row(lack),
        Lacking::Load(lack) => load_row(lack),
        Lacking::Move(lack) => move_row(lack),
    }
}

/// Writes which of the three reasons holds.
pub fn write_refusal<S: Serializer>(refusal: &Refusal, out: &mut S) -> Result<(), S::Error> {
    match refusal {
        Refusal::Closed => write_word("why", "closed", out),
        Refusal::Absent(absent) => {
            write_word("why", "absent", out)?;
            write_row("case", &absent_row(absent), out)
        }
        Refusal::Lacking(lacking) => {
            write_word("why", "unknown", out)?;
            write_row("case", &lacking_row(lacking), out)
        }
    }
}
