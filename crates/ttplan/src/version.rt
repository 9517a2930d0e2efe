//! Which version is this, and which build?

use command_line::VERSION;
use command_streams::{End, Fault, end_with, take_input};
use std::alloc::{AllocError, Global};
use std::fs::File;
use std::io::{Seek, SeekFrom};

/// How many bytes a stamp has, which `tools/stamp` puts behind a program that was proved.
const STAMP_BYTES: usize = 128;

/// What a stamp begins with.
const PROVED: &str = "proved: ";

/// What is said of a program that has none.
const UNPROVED: &str = "unproved build: its answers promise nothing";

/// The last bytes of the program's own file, as a stamp has them.
fn last_bytes(rt: &HostRuntime) -> Option<Vec<u8>> {
    let mut file = File::open(rt, "/proc/self/exe").ok()?;
    file.seek(SeekFrom::End(-(STAMP_BYTES as i64))).ok()?;
    let taken = take_input(rt.alloc(), &mut file, STAMP_BYTES).ok()?;
    Some(taken.bytes)
}

/// The line of these bytes, where they are a stamp: nothing that does anything to a terminal.
fn stamped(bytes: &[u8]) -> Option<&str> {
    let line = str::from_utf8(bytes).ok()?.trim();
    let is_plain = line
        .as_bytes()
        .iter()
        .all(|byte| byte.is_ascii_graphic() || *byte == b' ');
    if line.starts_with(PROVED) && is_plain {
        Some(line)
    } else {
        None
    }
}

/// The text of `--version`.
fn text_of(alloc: Global, bytes: Option<&[u8]>) -> Result<String, AllocError> {
    let line = match bytes {
        Some(bytes) => stamped(bytes).unwrap_or(UNPROVED),
        None => UNPROVED,
    };
    format!(in alloc; "{VERSION}{line}\n")
}

/// Says which version this is, and of which commit it was proved by which toolchain, or that it wasn't.
pub fn version(rt: &HostRuntime) -> End {
    let bytes = last_bytes(rt);
    let bytes = match &bytes {
        Some(bytes) => Some(bytes.as_slice()),
        None => None,
    };
    match text_of(rt.alloc(), bytes) {
        Ok(text) => end_with(&mut rt.stdout(), text.as_bytes()),
        Err(_) => End::Refused(Fault::Memory),
    }
}
