//! What follows from the definitions alone. This function does nothing: its contract is the law.

ghost use Rattle.std.specs.Prelude.{◌≡◌, ℕ, List, Ok};
ghost use Rattle.certificate.specs.declared.head.Head.{Head};
ghost use Rattle.certificate.specs.declared.version.Version.{Version};
ghost use Rattle.certificate.specs.Reading.{said_in};
ghost use Rattle.certificate.specs.Versions.{allows_head};
ghost use Rattle.certificate.specs.Words.{count_of, head_words, heads_with};
ghost use Rattle.certificate_reasons.specs.Places.{steps_named};

/// A node's line names just the steps that it says.
pub fn lines_name_their_steps()
    ensures { (version : Version) (line : ℕ) (text : List ℕ) (head : Head)
        → said_in head_words heads_with (allows_head version) line text ≡ Ok head
        → steps_named text ≡ count_of head }
{}
