//! Which version and which bound do the first two lines state?

ghost use Rattle.std.specs.Prelude.{◌≡◌, ◌+◌, IfOk, IfErr, OnOk};
ghost use Rattle.certificate.specs.Words.{low_words, lows_with};
ghost use Rattle.certificate.specs.Versions.{allows_low};
ghost use Rattle.certificate.specs.Reading.{IsAnswer, said_in, with_keyword, low_at};
ghost use Rattle.certificate.specs.Numbers.{numbers_in};
ghost use Rattle.certificate.specs.Sources.{Origin, Says, IsFaultOn};

use crate::fault::{CertTextError, LineFault, SourceFault};
use crate::numbers::words_of;
use crate::source::LineSource;
use crate::version::Version;
use line_text::cut;
use tt_infer::FewNumbers;

fn low_with(keyword: &[u8], numbers: FewNumbers) -> Option<u32>
    ensures { result ≡ with_keyword low_words keyword.now (lows_with (numbers_in numbers)) }
{
    match numbers {
        FewNumbers::One(low) if keyword == b"low".as_slice() => Some(low),
        _ => None,
    }
}

/// The bound that a line says.
#[tactic(auto, unfolding(crate::specs::Reading::said_in))]
fn low_in(line: u64, text: &[u8]) -> Result<u32, CertTextError>
    ensures { IsAnswer ⊥ (λ x. x) result (said_in low_words lows_with allows_low line text.now) }
{
    let Some((keyword, rest)) = cut(b' ', text) else {
        return Err(LineFault::Form.at(line));
    };
    let words = words_of(line, rest)?;
    let Some(low) = low_with(keyword, words.numbers()) else {
        return Err(LineFault::Form.at(line));
    };
    if !words.fit() {
        return Err(LineFault::Number.at(line));
    }
    Ok(low)
}

/// The version and the bound that the first two lines of a source state, in ticks.
pub fn low_from<L: LineSource>(source: &mut L) -> Result<(Version, u32), SourceFault>
    requires { L.passed source.old ≡ 0 }
    ensures said { IfOk result (Says (L.may_leave source.old) (L.may_leave source.new) low_at) }
    ensures passed { OnOk result (L.passed source.new ≡ 2) }
    ensures err { IfErr result (IsFaultOn (L.may_stop source.new) (L.may_leave source.old) low_at) }
    ensures from { (origin : Origin) → L.may_be_from source.old origin → L.may_be_from source.new origin }
{
    source.next_line()?;
    let Some(version) = Version::of_line(source.line()) else {
        return Err(SourceFault::Text(LineFault::FirstLine.at(1)));
    };
    source.next_line()?;
    let low = low_in(2, source.line())?;
    Ok((version, low))
}
