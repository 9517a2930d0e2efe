//! Which members tells a step of a leaf?

use crate::members::{Row, row_of, write_row};
use certificate_reasons::{
    CloserReason, Conclusion, DominanceReason, EarliestStart, LatestEnd, LoadReason, OrderReason,
    RoundReason, StepReason, ToldStep, UnderWay,
};
use serde::{Serialize, Serializer};

/// Why a process starts at a tick or later.
fn start_row<'a>(reason: &EarliestStart<'a>) -> Row<'a> {
    match *reason {
        EarliestStart::Release { process, release } => row_of!("es-release", process, #release),
        EarliestStart::Link {
            before,
            end,
            after,
            link,
        } => row_of!("es-link", before, #end, after, #link),
        EarliestStart::Behind { before, end, after } => row_of!("es-before", before, #end, after),
        EarliestStart::Arrival {
            message,
            round,
            node,
            end,
            copy_in,
        } => row_of!("es-arrive", message, #round, node, #end, #copy_in),
        EarliestStart::Message {
            sender,
            end,
            transfer: UnderWay {
                message,
                copy_out,
                duration,
                copy_in,
            },
        } => row_of!("es-message", sender, #end, message, #copy_out, #duration, #copy_in),
    }
}

/// Why a process ends at a tick or earlier.
fn end_row<'a>(reason: &LatestEnd<'a>) -> Row<'a> {
    match *reason {
        LatestEnd::Own {
            process,
            deadline,
            horizon,
            goal,
        } => row_of!("le-own", process, #deadline, #horizon, #goal),
        LatestEnd::Link {
            after,
            start,
            before,
            link,
        } => row_of!("le-link", after, #start, before, #link),
        LatestEnd::Before {
            after,
            start,
            before,
        } => row_of!("le-before", after, #start, before),
        LatestEnd::Message {
            receiver,
            start,
            transfer: UnderWay {
                message,
                copy_out,
                duration,
                copy_in,
            },
        } => row_of!("le-message", receiver, #start, message, #copy_out, #duration, #copy_in),
        LatestEnd::Send {
            message,
            round,
            node,
            start,
            copy_out,
        } => row_of!("le-send", message, #round, node, #start, #copy_out),
    }
}

/// Why a message is sent in a round or later, or before one.
fn round_row<'a>(reason: &RoundReason<'a>) -> Row<'a> {
    match *reason {
        RoundReason::Send {
            message,
            ready,
            node,
        } => row_of!("lo-send", message, #ready, node),
        RoundReason::Arrive {
            receiver,
            wcet,
            end,
            message,
            copy_in,
        } => row_of!("hi-arrive", receiver, #wcet, #end, message, #copy_in),
    }
}

/// Why a process goes before another one.
fn order_row<'a>(reason: &OrderReason<'a>) -> Row<'a> {
    match *reason {
        OrderReason::Window {
            other,
            other_end,
            process,
            wcet,
            end,
        } => row_of!("ord-window", other, #other_end, process, #wcet, #end),
        OrderReason::Twins { process, other } => row_of!("ord-twin", process, other),
    }
}

/// Why no plan is left by times, rounds or orders; of a ring without its processes.
fn closer_row<'a>(reason: &CloserReason<'a>) -> Row<'a> {
    match reason {
        CloserReason::Window {
            process,
            least,
            most,
        } => row_of!("x-window", process: *process, #least: *least, #most: *most),
        CloserReason::Rounds {
            message,
            least,
            late,
        } => row_of!("x-round", message: *message, #least: *least, #late: *late),
        CloserReason::Cycle { .. } => row_of!("x-cycle"),
    }
}

/// Why no plan is left by what a node or its frames have to do.
fn load_row<'a>(reason: &LoadReason<'a>) -> Row<'a> {
    match *reason {
        LoadReason::Load {
            node,
            from,
            until,
            ticks,
        } => row_of!("x-load", node, #from, #until, #ticks),
        LoadReason::Frame {
            message,
            bytes,
            node,
            most,
        } => row_of!("x-frame", message, #bytes, node, #most),
        LoadReason::Frames {
            node,
            from,
            before,
            frames,
            most,
            channels,
        } => row_of!("x-frames", node, #from, #before, #frames, #most, #channels),
        LoadReason::Halves {
            channel,
            node,
            from,
            before,
            room,
        } => row_of!("x-channel", #channel, node, #from, #before, #room),
    }
}

/// Which small change would improve a plan.
fn dominance_row<'a>(reason: &DominanceReason<'a>) -> Row<'a> {
    match *reason {
        DominanceReason::Settled { process, wcet } => row_of!("us-settled", process, #wcet),
        DominanceReason::Late {
            message,
            round,
            node,
            start,
            ready,
        } => row_of!("x-late", message, #round, node, #start, #ready),
        DominanceReason::Silent { node, other } => row_of!("x-silent", node, other),
        DominanceReason::Mirror { message } => row_of!("x-mirror", message),
    }
}

/// Why a step concludes what it does, by its rule.
fn reason_row<'a>(reason: &StepReason<'a>) -> Row<'a> {
    match reason {
        StepReason::Start(reason) => start_row(reason),
        StepReason::End(reason) => end_row(reason),
        StepReason::Round(reason) => round_row(reason),
        StepReason::Order(reason) => order_row(reason),
        StepReason::Closer(reason) => closer_row(reason),
        StepReason::Load(reason) => load_row(reason),
        StepReason::Dominance(reason) => dominance_row(reason),
    }
}

/// What is known after a step.
fn conclusion_row<'a>(reason: &Conclusion<'a>) -> Row<'a> {
    match *reason {
        Conclusion::StartsFrom {
            process,
            before,
            after,
        } => row_of!("starts_from", process, #before, #after),
        Conclusion::EndsUntil {
            process,
            before,
            after,
        } => row_of!("ends_until", process, #before, #after),
        Conclusion::SentFrom {
            message,
            before,
            after,
        } => row_of!("sent_from", message, #before, #after),
        Conclusion::SentBefore {
            message,
            before,
            after,
        } => row_of!("sent_before", message, #before, #after),
        Conclusion::GoesFirst { process, other } => row_of!("goes_first", process, other),
        Conclusion::NoPlanLeft => row_of!("no_plan_left"),
    }
}

/// Writes the processes of a ring.
fn write_ring<S: Serializer>(reason: &StepReason, out: &mut S) -> Result<(), S::Error> {
    match reason {
        StepReason::Closer(CloserReason::Cycle { processes }) => {
            out.key("processes")?;
            processes.as_slice().serialize(out)
        }
        _ => Ok(()),
    }
}

/// Writes what follows of a step, as an object.
fn write_then<S: Serializer>(known: &Conclusion, out: &mut S) -> Result<(), S::Error> {
    out.key("then")?;
    out.begin_map(None)?;
    write_row("kind", &conclusion_row(known), out)?;
    out.end_map()
}

/// Writes a step, as an object.
fn write_step<S: Serializer>(step: &ToldStep, out: &mut S) -> Result<(), S::Error> {
    out.begin_map(None)?;
    write_row("rule", &reason_row(&step.reason), out)?;
    write_ring(&step.reason, out)?;
    write_then(&step.conclusion, out)?;
    out.end_map()
}

/// Writes steps, as a list.
pub fn write_steps<S: Serializer>(steps: &[ToldStep], out: &mut S) -> Result<(), S::Error> {
    out.begin_seq(None)?;
    for k in 0..steps.len() {
        write_step(&steps[k], out)?;
    }
    out.end_seq()
}
