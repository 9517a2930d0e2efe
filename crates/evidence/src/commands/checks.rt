//! Which certificates are refused, and what is told of one that is read as it comes.

ghost use Rattle.std.specs.Prelude.{◌≡◌, ◌+◌, ◌<◌, List, [], ◌∷◌, IfErr, IfOk, IsErr, Ok, Err, Some, length};
ghost use Rattle.std.specs.Io.KnownBytes.{IsAtEnd};
ghost use Rattle.ttp_model.specs.declared.step.Leaf.{Leaf};
ghost use Rattle.ttp_model.specs.declared.step.Step.{Step};
ghost use Rattle.tt_choice.specs.Branches.{IsOpen, root_choice};
ghost use Rattle.sought_plans.specs.Known.{Known, first_facts};
ghost use Rattle.tt_infer.specs.Table.{IsLawful};
ghost use Rattle.certificate.specs.declared.branch.Branch.{Branch};
ghost use Rattle.certificate.specs.declared.node.Node.TheVariants as node;
ghost use Rattle.certificate.specs.Blocks.{IsFrom};
ghost use Rattle.certificate.specs.Cert.{Cert};
ghost use Rattle.certificate.specs.Limits.{most_text_bytes};
ghost use Rattle.certificate.specs.Streams.{BytesRead};
ghost use Rattle.certificate.specs.Trees.{Trees, grow, none};
ghost use Rattle.tree_check.specs.declared.fault.CertFault.{CertFault};
ghost use Rattle.cert_check.specs.declared.fault.StreamFault.TheVariants as stream;
ghost use Rattle.tree_check.specs.Faults.{IsJudged};
ghost use Rattle.tree_check.specs.Proofs.{Proves};

use cert_check::{CertFault, StreamFault, check, check_stream};
use certificate::Cert;
use std::alloc::Global;
use std::io::Read;
use std::thread::Threads;
use ttp_model::Instance;

/// A branch that isn't open, at the root.
pub fn branch_that_is_not_open_is_refused(
    alloc: Global,
    instance: &Instance,
    cert: &Cert,
) -> Result<u32, CertFault>
    ensures { (branch : Branch) (below : Trees) → cert.now.tree ≡ grow (node.Branch branch) below none
        → ¬ IsOpen instance.now (root_choice instance.now) branch.kind → IsErr result }
{
    check(alloc, instance, cert)
}

/// A leaf without steps closes nothing.
pub fn leaf_without_steps_is_refused(
    alloc: Global,
    instance: &Instance,
    cert: &Cert,
) -> Result<u32, CertFault>
    ensures { (leaf : Leaf) → cert.now.tree ≡ grow (node.Leaf leaf) none none → leaf.steps ≡ [] → IsErr result }
{
    check(alloc, instance, cert)
}

/// A leaf whose first step isn't lawful.
pub fn unlawful_first_step_is_refused(
    alloc: Global,
    instance: &Instance,
    cert: &Cert,
) -> Result<u32, CertFault>
    ensures { (leaf : Leaf) (step : Step) (steps : List Step) → cert.now.tree ≡ grow (node.Leaf leaf) none none
        → leaf.steps ≡ step ∷ steps
        → ((g : Known) → ¬ IsLawful instance.now (root_choice instance.now) leaf.goal
        (first_facts instance.now (root_choice instance.now)) step g) → IsErr result }
{
    check(alloc, instance, cert)
}

/// A yes is a proof, whose every node suits its own choice.
pub fn yes_is_a_proof(alloc: Global, instance: &Instance, cert: &Cert) -> Result<u32, CertFault>
    ensures { IfOk result (λ low. Proves instance.now cert.now) }
{
    check(alloc, instance, cert)
}

/// So it is of bytes that are judged as they are read, by several threads.
pub fn yes_of_bytes_is_a_proof(
    rt: &(impl Threads + Sync),
    alloc: Global,
    instance: &Instance,
    bytes: &[u8],
    batch: usize,
) -> Result<u32, StreamFault>
    ensures { IfOk result (λ low. (cert : Cert) × BytesRead (Some bytes.now) (Ok cert) × Proves instance.now cert) }
{
    let mut reader = bytes;
    check_stream(rt, alloc, instance, &mut reader, batch)
}

/// The fault that is told of the certificate is its first, and its text has none.
pub fn fault_of_bytes_is_the_first(
    rt: &(impl Threads + Sync),
    alloc: Global,
    instance: &Instance,
    bytes: &[u8],
    batch: usize,
) -> Result<u32, StreamFault>
    ensures { (fault : CertFault) → result ≡ Err (stream.Cert fault)
        → (cert : Cert) × BytesRead (Some bytes.now) (Ok cert) × IsJudged instance.now cert (Err fault) }
{
    let mut reader = bytes;
    check_stream(rt, alloc, instance, &mut reader, batch)
}

/// Behind a fault of the certificate the rest is still read.
pub fn rest_is_read_behind_a_fault<R: Read>(
    rt: &(impl Threads + Sync),
    alloc: Global,
    instance: &Instance,
    reader: &mut R,
    batch: usize,
) -> Result<u32, StreamFault>
    ensures { (fault : CertFault) → result ≡ Err (stream.Cert fault) → IsAtEnd (R.remaining reader.new) }
{
    check_stream(rt, alloc, instance, reader, batch)
}

/// More bytes than a text may have are refused, be it one.
pub fn byte_past_the_limit_is_refused(
    rt: &(impl Threads + Sync),
    alloc: Global,
    instance: &Instance,
    bytes: &[u8],
    batch: usize,
) -> Result<u32, StreamFault>
    ensures { most_text_bytes < length bytes.now → IsErr result }
{
    let mut reader = bytes;
    check_stream(rt, alloc, instance, &mut reader, batch)
}

/// Where a text is told to be too long, just one byte past the limit was taken of its reader.
pub fn one_byte_past_the_limit_is_taken<R: Read>(
    rt: &(impl Threads + Sync),
    alloc: Global,
    instance: &Instance,
    reader: &mut R,
    batch: usize,
) -> Result<u32, StreamFault>
    ensures { result ≡ Err stream.TooLong
        → IsFrom (R.remaining reader.new) (most_text_bytes + 1) (R.remaining reader.old) }
{
    check_stream(rt, alloc, instance, reader, batch)
}
