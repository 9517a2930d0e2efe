//! As which value is told what is wrong with a certificate, or how it proves its bound?

use crate::members::{Row, row_of, write_number, write_row, write_word};
use crate::refusal_values::{no_part_row, write_refusal};
use crate::step_values::write_steps;
use certificate::{LineFault, MOST_BRANCHES_ABOVE};
use certificate_reasons::{
    CertLine, CertReason, ChildCount, GreatLow, LeafReason, LinePlace, LowGoal, NoProof,
    NodeReason, NotOpen, ProofReason, TextReason, TreeSize,
};
use sentences::Told;
use serde::{Described, Serialize, Serializer};

/// What is told of a certificate, as an object.
#[derive(Clone, Copy)]
pub enum CertificateValue<'r, 'a> {
    /// Why a text spells none.
    Unwritten(&'r TextReason<'a>),
    /// Why it doesn't prove its bound.
    Unproved(&'r CertReason<'a>),
    /// How it does.
    Proved(&'r ProofReason<'a>),
}

/// What has to stand in a line.
fn form_of(place: LinePlace) -> &'static str {
    match place {
        LinePlace::First => "version",
        LinePlace::Low => "low",
        LinePlace::Node => "node",
        LinePlace::Step => "step",
    }
}

/// Writes a line that is at fault.
fn write_line<S: Serializer>(line: CertLine, out: &mut S) -> Result<(), S::Error> {
    write_number("line", line.number, out)?;
    out.key("text")?;
    out.collect_str(&Told { bytes: line.text })
}

/// Writes why a text spells no certificate.
fn write_unwritten<S: Serializer>(reason: &TextReason, out: &mut S) -> Result<(), S::Error> {
    write_line(reason.line, out)?;
    match reason.fault {
        LineFault::Depth => write_number("most", MOST_BRANCHES_ABOVE as u64, out),
        LineFault::FirstLine | LineFault::Form | LineFault::Number | LineFault::EarlyEnd => {
            write_word("form", form_of(reason.place), out)
        }
        LineFault::Trailing => Ok(()),
    }
}

/// How many children a branch has, and has to have.
fn count_row<'a>(reason: &ChildCount<'a>) -> Row<'a> {
    match *reason {
        ChildCount::Places { children } => row_of!("place", #children),
        ChildCount::Capacities {
            children,
            node,
            capacities,
        } => row_of!("cap", #children, node, #capacities),
    }
}

/// Why a branch isn't open.
fn closed_row<'a>(reason: &NotOpen<'a>) -> Row<'a> {
    match *reason {
        NotOpen::Absent(lacking) => no_part_row(lacking),
        NotOpen::Placed => row_of!("placed"),
        NotOpen::Capacity { node } => row_of!("capacity", node),
        NotOpen::Order { process, other } => row_of!("order", process, other),
        NotOpen::Round { message, round } => row_of!("round", message, #round),
        NotOpen::Channel { message } => row_of!("channel", message),
    }
}

/// A goal of a leaf below the bound.
fn low_goal_row(reason: &LowGoal) -> Row<'static> {
    let LowGoal { goal, low, by } = *reason;
    row_of!("low_goal", #goal, #low, #by)
}

/// Writes what is wrong with a node of a tree.
fn write_node<S: Serializer>(reason: &NodeReason, out: &mut S) -> Result<(), S::Error> {
    match reason {
        NodeReason::ChildCount(count) => {
            write_word("kind", "child_count", out)?;
            write_row("case", &count_row(count), out)
        }
        NodeReason::NotOpen(closed) => {
            write_word("kind", "not_open", out)?;
            write_row("case", &closed_row(closed), out)
        }
        NodeReason::LowGoal(low) => write_row("kind", &low_goal_row(low), out),
        NodeReason::RefusedStep(step) => {
            write_word("kind", "refused_step", out)?;
            write_refusal(&step.why, out)
        }
        NodeReason::NotClosed => write_word("kind", "not_closed", out),
    }
}

/// A bound past the first tick behind the horizon.
fn great_low_row(reason: &GreatLow) -> Row<'static> {
    let GreatLow {
        low,
        horizon,
        most,
        by,
    } = *reason;
    row_of!("great_low", #low, #horizon, #most, #by)
}

/// Writes why a certificate doesn't prove its bound.
fn write_unproved<S: Serializer>(reason: &CertReason, out: &mut S) -> Result<(), S::Error> {
    write_line(reason.line, out)?;
    match &reason.why {
        NoProof::GreatLow(great) => write_row("kind", &great_low_row(great), out),
        NoProof::Node(node) => write_node(node, out),
    }
}

/// Writes how a leaf closes the choice of all plans.
fn write_leaf<S: Serializer>(leaf: &LeafReason, out: &mut S) -> Result<(), S::Error> {
    write_word("kind", "leaf", out)?;
    write_number("goal", leaf.goal as u64, out)?;
    out.key("settled")?;
    out.bool(leaf.settled)?;
    write_number("more", leaf.more, out)?;
    out.key("steps")?;
    write_steps(leaf.steps.as_slice(), out)
}

/// Of how many branches of each kind a tree is.
fn tree_row(size: &TreeSize) -> Row<'static> {
    let (place, cap, pair) = (size.place, size.cap, size.pair);
    let (round, chan) = (size.round, size.chan);
    row_of!("tree", #place, #cap, #pair, #round, #chan)
}

/// Writes how large a tree is.
fn write_tree<S: Serializer>(size: &TreeSize, out: &mut S) -> Result<(), S::Error> {
    write_row("kind", &tree_row(size), out)?;
    write_number("leaves", size.leaves, out)?;
    write_number("steps", size.steps, out)?;
    write_number("above", size.above, out)
}

/// Writes how a certificate proves its bound.
fn write_proved<S: Serializer>(reason: &ProofReason, out: &mut S) -> Result<(), S::Error> {
    match reason {
        ProofReason::Leaf(leaf) => write_leaf(leaf, out),
        ProofReason::Tree(size) => write_tree(size, out),
    }
}

impl<'r, 'a> CertificateValue<'r, 'a> {
    /// Writes its members.
    fn write<S: Serializer>(&self, out: &mut S) -> Result<(), S::Error> {
        match *self {
            CertificateValue::Unwritten(reason) => write_unwritten(reason, out),
            CertificateValue::Unproved(reason) => write_unproved(reason, out),
            CertificateValue::Proved(reason) => write_proved(reason, out),
        }
    }
}

impl<'r, 'a> Described for CertificateValue<'r, 'a> {}

impl<'r, 'a> Serialize for CertificateValue<'r, 'a> {
    fn serialize<S: Serializer>(&self, out: &mut S) -> Result<(), S::Error> {
        out.begin_map(None)?;
        self.write(out)?;
        out.end_map()
    }
}
