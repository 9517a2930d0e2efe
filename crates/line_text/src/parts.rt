//! What stands in a text before a byte and behind it, and what stands behind a keyword?

ghost use Rattle.std.specs.Prelude.{◌≡◌, ◌==◌, ◌<◌, ◌∷◌, ◌++◌, length, IfSome, IfNone, position};
ghost use Rattle.line_text.specs.Parts.{cut, after_keyword, Lacks, seen_pair, seen_rest};

fn place_of(byte: u8, bytes: &[u8]) -> Option<usize>
    ensures value { result ≡ position (λ b. b == byte) bytes.now }
    ensures within { IfSome result (λ at. at < length bytes.now) }
{
    bytes.iter().position(|b| *b == byte)
}

/// What stands before the first such byte, and what stands behind it. Reads no further than that
/// byte, and takes no memory.
#[tactic(auto, unfolding(crate::specs::Parts::cut))]
pub fn cut(byte: u8, bytes: &[u8]) -> Option<(&[u8], &[u8])>
    ensures value { seen_pair result ≡ cut byte bytes.now }
    ensures joined { IfSome result (λ p. bytes.now ≡ p.0.now ++ byte ∷ p.1.now) }
    ensures first { IfSome result (λ p. Lacks byte p.0.now) }
    ensures none { IfNone result (Lacks byte bytes.now) }
    ensures shorter { IfSome result (λ p. length p.1.now < length bytes.now) }
{
    let at = place_of(byte, bytes)?;
    let (front, _) = bytes.split_at(at);
    let (_, rest) = bytes.split_at(at + 1);
    Some((front, rest))
}

/// What stands behind a keyword that the text begins with. Takes no memory.
#[tactic(auto, unfolding(crate::specs::Parts::after_keyword))]
pub fn after_keyword<'a>(keyword: &[u8], bytes: &'a [u8]) -> Option<&'a [u8]>
    ensures value { seen_rest result ≡ after_keyword keyword.now bytes.now }
    ensures joined { IfSome result (λ rest. bytes.now ≡ keyword.now ++ rest.now) }
{
    bytes.strip_prefix(keyword)
}
