//! What are the parts of the tables of a cycle called?

ghost use Rattle.std.specs.Prelude.{Some};
ghost use Rattle.std.specs.List.{flat_map};
ghost use Rattle.ttp_model.specs.Parts.{instance_of};
ghost use Rattle.rates_command.specs.Lines.{link_names, named_place, spaced_name};
ghost use Rattle.rates_command.specs.Wording.{named_text};

use instance_reasons::{link_at, message_name, node_name, process_name};
use std::fmt;
use ttp_model::{Parts, Place};

/// The names of a link's two ends.
#[derive(Drop)]
pub struct LinkNames<'a>(pub &'a Parts, pub u32);

impl<'a> fmt::Display for LinkNames<'a> {
    ghost output = { λ x. Some (link_names (instance_of x.0.now) x.1) };

    fn fmt<W: fmt::Write>(&self, f: &mut fmt::Formatter<W>) -> fmt::Result {
        let link = link_at(self.0, self.1);
        let before = process_name(self.0, link.before);
        let after = process_name(self.0, link.after);
        write!(f, "{before} {after}")
    }
}

/// The words for a place, by names.
#[derive(Drop)]
pub struct NamedPlace<'a>(pub &'a Parts, pub Place);

impl<'a> fmt::Display for NamedPlace<'a> {
    ghost output = { λ x. Some (named_place (instance_of x.0.now) x.1) };

    fn fmt<W: fmt::Write>(&self, f: &mut fmt::Formatter<W>) -> fmt::Result {
        match self.1 {
            Place::AtCluster => f.write_str("cluster"),
            Place::AtNode(n) => write!(f, "node {}", node_name(self.0, n)),
            Place::AtProcess(p) => write!(f, "process {}", process_name(self.0, p)),
            Place::AtLink(l) => write!(f, "link {}", LinkNames(self.0, l)),
            Place::AtMessage(m) => write!(f, "message {}", message_name(self.0, m)),
        }
    }
}

/// The names of processes, each behind a space.
#[derive(Drop)]
pub struct SpacedNames<'a>(pub &'a Parts, pub &'a [u32]);

impl<'a> fmt::Display for SpacedNames<'a> {
    ghost output = { λ x. Some (flat_map (spaced_name (instance_of x.0.now)) x.1.now) };

    fn fmt<W: fmt::Write>(&self, f: &mut fmt::Formatter<W>) -> fmt::Result {
        for p in self.1 {
            write!(f, " {}", process_name(self.0, *p))?;
        }
        Ok(())
    }
}

/// A line without its end, by names. Its first words end with a space where something stands behind them.
#[derive(Drop)]
pub enum NamedWords<'a> {
    Alone(&'static str),
    /// The word for a list.
    OfList(&'static str, &'static str),
    At(&'static str, NamedPlace<'a>),
    /// Names, with a space before each.
    All(&'static str, SpacedNames<'a>),
}

impl<'a> fmt::Display for NamedWords<'a> {
    ghost output = { λ x. Some (named_text x) };

    fn fmt<W: fmt::Write>(&self, f: &mut fmt::Formatter<W>) -> fmt::Result {
        match self {
            NamedWords::Alone(words) => f.write_str(words),
            NamedWords::OfList(words, list) => write!(f, "{words}{list}"),
            NamedWords::At(words, place) => write!(f, "{words}{place}"),
            NamedWords::All(words, names) => write!(f, "{words}{names}"),
        }
    }
}
