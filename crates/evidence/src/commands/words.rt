//! What do words ask for?

ghost use Rattle.std.specs.Prelude.{IfSome};
ghost use Rattle.evidence.specs.Words.{SparesInstance};

use command_line::{Request, request_in};
use std::alloc::Global;

/// A search's certificate is written to another file than the instance's, also where that is spelled otherwise.
pub fn certificate_is_another_file<'a>(alloc: Global, words: &'a [String]) -> Option<Request<'a>>
    ensures { IfSome result SparesInstance }
{
    match request_in(alloc, words) {
        Ok(request) => Some(request),
        Err(_) => None,
    }
}
