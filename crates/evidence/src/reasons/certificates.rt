//! What is told of a certificate, whether it proves its bound or not?

ghost use Rattle.std.specs.Prelude.{◌≡◌, ℕ, ◌<◌, Err, IfOk};
ghost use Rattle.certificate.specs.declared.branch.Branch.{Branch};
ghost use Rattle.certificate.specs.declared.node.Node.TheVariants.{Branch as Splits, Leaf as Closes};
ghost use Rattle.certificate.specs.Cert.{Cert};
ghost use Rattle.certificate.specs.Spelling.{SpellsCert};
ghost use Rattle.certificate.specs.Trees.{grow, none};
ghost use Rattle.certificate_reasons.specs.declared.certs.GreatLow.{GreatLow};
ghost use Rattle.certificate_reasons.specs.declared.certs.NoProof.TheVariants as why;
ghost use Rattle.certificate_reasons.specs.declared.proof.ProofReason.TheVariants as proof;
ghost use Rattle.certificate_reasons.specs.declared.sizes.TreeSize.{TreeSize};
ghost use Rattle.certificate_reasons.specs.Proofs.{IsProof};
ghost use Rattle.tree_check.specs.declared.fault.CertFault.TheVariants.{LowTooGreat};
ghost use Rattle.tree_check.specs.Faults.{IsJudged};
ghost use Rattle.ttp_model.specs.declared.step.Leaf.{Leaf};

use certificate_reasons::{CertReason, ProofReason, cert_reason, proof_reason};
use std::alloc::Global;
use tree_check::CertFault;
use ttp_model::{Instance, MemoryFault};

/// Of a branch and two leaves below it one branch is told to stand above a leaf.
pub fn leaf_is_no_branch_above_itself<'a>(
    alloc: Global,
    instance: &'a Instance,
    bytes: &[u8],
) -> Result<ProofReason<'a>, MemoryFault>
    requires { IsProof instance.now bytes.now }
    ensures { IfOk result (λ told. (cert : Cert) × SpellsCert bytes.now cert × ((branch : Branch) (first second : Leaf) (x : TreeSize)
        → cert.tree ≡ grow (Splits branch) (grow (Closes first) none (grow (Closes second) none none)) none
        → told ≡ proof.Tree x → x.above ≡ 1)) }
{
    proof_reason(alloc, instance, bytes)
}

/// The bound that says that there is no plan is told as the greatest.
pub fn horizon_and_one_tick_is_the_greatest_bound<'a>(
    alloc: Global,
    instance: &'a Instance,
    bytes: &'a [u8],
) -> Result<CertReason<'a>, MemoryFault>
    requires { (cert : Cert) × SpellsCert bytes.now cert × IsJudged instance.now cert (Err LowTooGreat) }
    ensures { IfOk result (λ told. (x : GreatLow) → told.why ≡ why.GreatLow x → x.horizon < x.most) }
{
    cert_reason(alloc, instance, bytes, CertFault::LowTooGreat)
}
