//! What does a text begin like that stands in place of another one?

ghost use Rattle.std.specs.Prelude.{◌≡◌};
ghost use Rattle.explain_command.specs.Mistaken.{first_line_words, in_place_of_instance, in_place_of_plan, is_like_certificate, is_like_instance, is_like_plan};

use line_text::numbered_line;

/// That a text begins like a certificate.
const CERTIFICATE_WORDS: &str =
    "The text begins like a certificate, with ttcert: the words are INSTANCE first, and then --cert CERT.\n";

/// Whether a text begins like a plan.
fn is_like_plan(bytes: &[u8]) -> bool
    ensures { result ≡ is_like_plan bytes.now }
{
    bytes.starts_with(b"ttplan ")
}

/// Whether one begins like a certificate.
fn is_like_certificate(bytes: &[u8]) -> bool
    ensures { result ≡ is_like_certificate bytes.now }
{
    bytes.starts_with(b"ttcert ")
}

/// Whether one begins like an instance, with a table or a comment.
fn is_like_instance(bytes: &[u8]) -> bool
    ensures { result ≡ is_like_instance bytes.now }
{
    bytes.starts_with(b"[") || bytes.starts_with(b"#")
}

/// What is told of a text that stands where an instance has to.
pub fn in_place_of_instance(bytes: &[u8]) -> &'static str
    ensures { result.now ≡ in_place_of_instance bytes.now }
{
    if is_like_plan(bytes) {
        "The text begins like a plan, with ttplan: the words are INSTANCE first, and then PLAN.\n"
    } else if is_like_certificate(bytes) {
        CERTIFICATE_WORDS
    } else {
        ""
    }
}

/// What is told of one that stands where a plan has to.
fn in_place_of_plan(bytes: &[u8]) -> &'static str
    ensures { result.now ≡ in_place_of_plan bytes.now }
{
    if is_like_certificate(bytes) {
        CERTIFICATE_WORDS
    } else if is_like_instance(bytes) {
        "The text begins like an instance: the words are INSTANCE first, and then PLAN.\n"
    } else if is_like_plan(numbered_line(bytes, 2)) {
        "A plan begins at line 2.\n"
    } else {
        ""
    }
}

/// What is told of a plan's text whose line of this number is at fault, where that is its first.
pub fn first_line_words(bytes: &[u8], line: u32) -> &'static str
    ensures { result.now ≡ first_line_words bytes.now line }
{
    if line == 1 {
        in_place_of_plan(bytes)
    } else {
        ""
    }
}
