//! Which branches can an answer's certificate do without?

ghost use Rattle.std.specs.Prelude.{◌≡◌, ℕ, ◌≤◌, IfSome, length};
ghost use Rattle.certificate.specs.Cert.{Cert};
ghost use Rattle.search_workers.specs.declared.outcome.Options.{Options};
ghost use Rattle.search_workers.specs.declared.outcome.Why.TheVariants.{Gap};
ghost use Rattle.planner.specs.Answers.{certified_by, IsOutcome};
ghost use Rattle.planner.specs.Searched.{AreAims, IsEndTree};
ghost use Rattle.search_workers.specs.Searching.{IsFound};

use certificate::{Cert, Version};
use search_workers::{Course, Manner, Options, Outcome, Search, aim};
use std::alloc::Global;
use ttp_model::{Instance, MemoryFault};
use used_decisions::{Standing, proof_of, without_unused};

/// The pieces of a search, and the tasks that it left.
fn standing(alloc: Global, search: &Search) -> Result<Vec<Standing>, MemoryFault> {
    let mut standing = Vec::new(alloc);
    standing.reserve_exact(search.pieces.len() + search.tasks.len())?;
    for piece in search.pieces.as_slice() {
        standing.push(Standing {
            name: &piece.name,
            node: Some(&piece.node),
        })?;
    }
    for task in search.tasks.as_slice() {
        standing.push(Standing {
            name: task.name(),
            node: None,
        })?;
    }
    Ok(standing)
}

/// A certificate of the goal at which a search worked in the end, of its pieces, where it left nothing but tasks that needn't be worked: none where one
/// of them is needed, memory is refused, or the search is plain.
pub fn lean_proof(
    alloc: Global,
    instance: &Instance,
    options: Options,
    course: Course,
    search: &Search,
) -> Option<Cert>
    requires found { IsFound instance.now search.now.best }
    requires aims { AreAims instance.now course.aims }
    requires within { length search.now.pieces.items ≤ options.budget }
    ensures { IfSome result (IsEndTree instance.now options course.aims.gap Gap search.now.best) }
{
    let _nodes = instance.nodes();
    if course.manner == Manner::Plain || search.tasks.len() > search.spared {
        return None;
    }
    let low = aim(instance, course.aims, &search.best);
    let standing = standing(alloc, search).ok()?;
    let version = Version::of_answers(instance);
    let most = search.pieces.len();
    match proof_of(alloc, instance, version, low, standing, most) {
        Ok(found) => found,
        Err(_) => None,
    }
}

/// The same answer, with a certificate without the branches that nothing below one of their children uses. What is said of a
/// search that was stopped counts the nodes of its tree, so that one stays as it is.
pub fn leaner(alloc: Global, instance: &Instance, outcome: Outcome) -> Outcome
    requires { (options : Options) × (gap : ℕ) × IsOutcome instance.now options gap outcome }
    ensures answer { (options : Options) (gap : ℕ) → IsOutcome instance.now options gap outcome → IsOutcome instance.now options gap result }
    ensures same { (cert : Cert) × (result ≡ certified_by cert outcome) }
{
    match outcome {
        Outcome::Optimal { plan, delay, cert } => Outcome::Optimal {
            plan,
            delay,
            cert: without_unused(alloc, instance, cert),
        },
        Outcome::Infeasible { cert } => Outcome::Infeasible {
            cert: without_unused(alloc, instance, cert),
        },
        stopped => stopped,
    }
}
