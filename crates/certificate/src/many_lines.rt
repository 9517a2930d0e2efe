//! How much of a text do so many lines take?

ghost use Rattle.std.specs.Prelude.{◌≡◌, ◌<◌, ◌≤◌, ◌^◌, length, take};
ghost use Rattle.certificate.specs.ManyLines.{AreLines, BeginLines};

/// How many bytes are gone through at once: a guess.
const RUN: usize = 64;

/// How many lines end in a text.
fn ends_in(text: &[u8]) -> u32
    requires { length text.now < 2 ^ 32 }
    ensures few { result ≤ length text.now }
    ensures begun { BeginLines result text.now }
{
    let mut ends = 0;
    for k in 0..text.len() {
        if text[k] == b'\n' {
            ends += 1;
        }
    }
    ends
}

/// How many bytes stand in whole runs in front of that in which the last of so many lines ends, and how many lines end in them.
fn runs_before(held: &[u8], count: u32) -> (usize, u32)
    requires { 0 < count }
    ensures within { result.0 ≤ length held.now }
    ensures ends { result.1 ≤ result.0 }
    ensures left { result.1 < count }
    ensures begun { BeginLines result.1 (take result.0 held.now) }
{
    let mut ends = 0;
    for k in 0..held.len() / RUN {
        let more = ends_in(&held[k * RUN..(k + 1) * RUN]);
        if more >= count - ends {
            return (k * RUN, ends);
        }
        ends += more;
    }
    (held.len() / RUN * RUN, ends)
}

/// The same as `lines_in`, byte by byte.
fn lines_by_bytes(held: &[u8], count: u32) -> (usize, u32)
    ensures within { result.0 ≤ length held.now }
    ensures ends { result.1 ≤ result.0 }
    ensures few { result.1 ≤ count }
    ensures whole { result.1 ≡ count → AreLines count (take result.0 held.now) }
    ensures begun { result.1 < count → (result.0 ≡ length held.now) × BeginLines result.1 (take result.0 held.now) }
{
    let mut ends = 0;
    for k in 0..held.len() {
        if ends == count {
            return (k, ends);
        }
        if held[k] == b'\n' {
            ends += 1;
        }
    }
    (held.len(), ends)
}

/// How many bytes so many lines with their ends take, and how many of them end: all, or those that there are, and then all
/// bytes are taken.
pub fn lines_in(held: &[u8], count: u32) -> (usize, u32)
    ensures within { result.0 ≤ length held.now }
    ensures ends { result.1 ≤ result.0 }
    ensures few { result.1 ≤ count }
    ensures whole { result.1 ≡ count → AreLines count (take result.0 held.now) }
    ensures begun { result.1 < count → (result.0 ≡ length held.now) × BeginLines result.1 (take result.0 held.now) }
{
    if count == 0 {
        return (0, 0);
    }
    let (before, ends) = runs_before(held, count);
    let (_, rest) = held.split_at(before);
    let (size, more) = lines_by_bytes(rest, count - ends);
    (before + size, ends + more)
}
