//! Which certificates do the words of a command join?

ghost use Rattle.std.specs.Prelude.{◌≡◌, ◌≤◌, All, false, length, IfOk, IfSome};
ghost use Rattle.command_line.specs.Names.{IsOtherFile};
ghost use Rattle.command_line.specs.Requests.{IsSound};

use crate::given::Given;
use crate::misuse::Misuse;
use crate::names::name_one_file;
use crate::options::{CERT_OF_ALL, CERTIFICATES, INSTANCE, OVER_OTHER};
use crate::words::{Joining, Request};
use std::alloc::{AllocError, Global};

/// Why fewer certificates aren't joined.
fn too_few<'a>(files: &[&'a str]) -> Misuse<'a> {
    match files.first() {
        Some(file) => Misuse::Unserved(CERTIFICATES, "two certificates at least are joined", *file),
        None => Misuse::Missing,
    }
}

/// The files of certificates, of which there are two at least.
fn certificates_of<'m, 'a>(given: Given<'m, 'a>) -> Result<&'m [&'a str], Misuse<'a>>
    ensures { IfOk result (λ files. 2 ≤ length files.now) }
{
    let Some(files) = given.texts(CERTIFICATES) else {
        return Err(Misuse::Missing);
    };
    if files.len() < 2 {
        return Err(too_few(files));
    }
    Ok(files)
}

/// Whether one of these words names the same file as another one.
fn is_one_of(alloc: Global, file: &str, files: &[&str]) -> Result<bool, AllocError>
    ensures { IfOk result (λ one. one ≡ false → All (λ other. IsOtherFile file.now other.now) files.now) }
{
    for other in files {
        if name_one_file(alloc, file, *other)? {
            return Ok(true);
        }
    }
    Ok(false)
}

/// The name of the file that the joined certificate is written to, which by its name is neither the instance's nor one of these.
fn joined_of<'a>(
    alloc: Global,
    given: Given<'_, 'a>,
    instance: &str,
    files: &[&str],
) -> Result<Option<&'a str>, Misuse<'a>>
    ensures instance { IfOk result (λ name. IfSome name (λ file. IsOtherFile file.now instance.now)) }
    ensures apart { IfOk result (λ name. IfSome name (λ file. All (λ other. IsOtherFile file.now other.now) files.now)) }
{
    let Some(file) = given.written(alloc, CERT_OF_ALL, instance, None)? else {
        return Ok(None);
    };
    if is_one_of(alloc, file, files)? {
        return Err(Misuse::Overwriting(CERT_OF_ALL, OVER_OTHER, file));
    }
    Ok(Some(file))
}

/// A join of certificates, with a file to be written that isn't one which it reads.
pub fn join_request<'a>(alloc: Global, given: Given<'_, 'a>) -> Result<Request<'a>, Misuse<'a>>
    ensures { IfOk result IsSound }
{
    let instance = given.text(INSTANCE)?;
    let files = certificates_of(given)?;
    let joined = joined_of(alloc, given, instance, files)?;
    let certificates = Vec::from_slice(alloc, files)?;
    Ok(Request::Join(Joining {
        instance,
        certificates,
        joined,
    }))
}
