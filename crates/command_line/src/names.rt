//! Do two words name one file?

ghost use Rattle.std.specs.Prelude.{◌≡◌, IfOk, map};
ghost use Rattle.std.specs.Bool.{Decides};
ghost use Rattle.command_line.specs.Names.{is_part, is_rooted, parts, NameOneFile};

use std::alloc::{AllocError, Global};

/// Whether a part of a name leads anywhere: it isn't empty, and not a single dot.
fn is_part(part: &str) -> bool
    ensures { result ≡ is_part part.now }
{
    !part.is_empty() && part != "."
}

/// The parts of a name between slashes that lead anywhere.
fn parts<'a>(alloc: Global, name: &'a str) -> Result<Vec<&'a str>, AllocError>
    ensures { IfOk result (λ v. map (λ part. part.now) v.items ≡ parts name.now) }
{
    name.split('/').filter(|part| is_part(part)).collect(alloc)
}

/// Whether a name begins at the root.
fn is_rooted(name: &str) -> bool
    ensures { result ≡ is_rooted name.now }
{
    match name.as_bytes() {
        [first, ..] => *first == b'/',
        [] => false,
    }
}

/// Whether two words name one file, as far as the words tell: `./k.toml` and `k.toml` do, and so do `a//b` and `a/b`.
/// Links and the way up, `..`, aren't followed.
pub fn name_one_file(alloc: Global, a: &str, b: &str) -> Result<bool, AllocError>
    ensures { IfOk result (λ same. Decides same (NameOneFile a.now b.now)) }
{
    if is_rooted(a) != is_rooted(b) {
        return Ok(false);
    }
    Ok(parts(alloc, a)? == parts(alloc, b)?)
}
