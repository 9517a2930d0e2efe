//! Which links are there between jobs?

ghost use Rattle.std.specs.Prelude.{◌≡◌, ◌<◌, ◌≤◌, ◌++◌, IfErr, IfOk, OnOk, length};
ghost use Rattle.ttp_model.specs.declared.limits.TheConstants.{MOST_LINKS};
ghost use Rattle.rates_model.specs.Cycles.{jobs_of};
ghost use Rattle.rates_model.specs.Rules.{IsRatesProcess};
ghost use Rattle.endless_schedules.specs.Faults.{IsTableFault};
ghost use Rattle.endless_schedules.specs.Places.{ArePlaces};
ghost use Rattle.endless_schedules.specs.Unrolled.{link_to, links_of, unrolled_links};

use crate::fault::TableFault;
use crate::places::Places;
use rates_model::{Rates, RatesLink};
use std::alloc::Global;
use ttp_model::{Link, MOST_LINKS, MemoryFault, Part};

/// The link to job `j` of a link's end.
#[tactic(auto, unfolding(crate::specs::Unrolled::link_to))]
fn link_to(rates: &Rates, places: &Places, link: RatesLink, j: u32) -> Link
    requires places { ArePlaces rates.now places.now }
    requires before { IsRatesProcess rates.now link.before }
    requires after { IsRatesProcess rates.now link.after }
    requires there { j < jobs_of rates.now link.after }
    ensures { result ≡ link_to rates.now link j }
{
    let begun = rates.last_begun(link.before, link.after, j);
    Link {
        before: places.of_job(rates, link.before, begun),
        after: places.of_job(rates, link.after, j),
    }
}

/// Adds the links to the jobs of a link's end.
fn push_links(
    list: &mut Vec<Link>,
    rates: &Rates,
    places: &Places,
    link: RatesLink,
) -> Result<(), MemoryFault>
    requires places { ArePlaces rates.now places.now }
    requires before { IsRatesProcess rates.now link.before }
    requires after { IsRatesProcess rates.now link.after }
    ensures { OnOk result (list.new.items ≡ list.old.items ++ links_of rates.now link) }
{
    if link.delay != 0 {
        return Ok(());
    }
    for j in 0..rates.jobs_of(link.after as usize) {
        list.push(link_to(rates, places, link, j))?;
    }
    Ok(())
}

/// All links between jobs, unless these are too many.
pub fn all_links(alloc: Global, rates: &Rates, places: &Places) -> Result<Vec<Link>, TableFault>
    requires places { ArePlaces rates.now places.now }
    ensures ok { IfOk result (λ links. links.items ≡ unrolled_links rates.now) }
    ensures few { IfOk result (λ links. length links.items ≤ MOST_LINKS) }
    ensures err { IfErr result (IsTableFault rates.now) }
{
    let mut links = Vec::new(alloc);
    for l in 0..rates.links().len() {
        push_links(&mut links, rates, places, rates.link_at(l))?;
        if links.len() > MOST_LINKS {
            return Err(TableFault::TooMany(Part::Links));
        }
    }
    Ok(links)
}
