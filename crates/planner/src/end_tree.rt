//! What does the tree of a search at its end say?

ghost use Rattle.std.specs.Prelude.{◌≡◌};
ghost use Rattle.search_workers.specs.Searching.{IsFound};
ghost use Rattle.search_workers.specs.declared.outcome.Why.TheVariants as causes;
ghost use Rattle.planner.specs.Answers.{best_of, IsCalledOff};
ghost use Rattle.planner.specs.Searched.{IsEndAnswer, IsLowest};

use certificate::{Cert, Node};
use search_workers::{FoundPlan, Outcome, Why, answer, cause, limit};
use ttp_model::Instance;

/// The lesser of a limit and the least goal of the leaves among nodes, in ticks.
fn lowest(nodes: &[Node], limit: u32) -> u32
    ensures { IsLowest limit nodes.now result }
{
    let mut low = limit;
    for node in nodes {
        low = match node {
            Node::Leaf(leaf) => low.min(leaf.goal),
            Node::Branch(_) => low,
        };
    }
    low
}

/// What a certificate's tree says of the best plan, where a search ended for a reason: its bound is the least goal of its leaves, or the delay that had to be
/// beaten where that is less.
pub fn ended(
    instance: &Instance,
    gap: u32,
    why: Why,
    best: Option<FoundPlan>,
    cert: Cert,
) -> Outcome
    requires { IsFound instance.now best }
    ensures answer { IsEndAnswer instance.now gap why best cert result }
    ensures best { best_of result ≡ best }
    ensures called_off { IsCalledOff result → why ≡ causes.CalledOff }
{
    let _nodes = instance.nodes();
    let limit = limit(instance, &best);
    let low = lowest(cert.nodes(), limit);
    let cause = cause(why, &best, low, gap);
    answer(cause, best, limit, low, cert.with_low(low))
}
