//! Which files of the system does a search make and rename to keep its best plan?

use command_streams::{Fault, PLAN_LIMIT, Sink, Source, read_all};
use file_commands::files::FileFault;
use solve_command::{Folder, MOST_BESIDE, Made, Shelf, name_beside};
use std::alloc::AllocError;
use std::fs::{self, File};
use std::io::{self, Write};

/// The system's files. What they hold no proof can tell: that each step does what is said of it here is to be read.
#[derive(Drop)]
pub struct SystemFolder<'a> {
    rt: &'a HostRuntime,
    /// The file that was made last.
    made: Option<File>,
}

impl<'a> SystemFolder<'a> {
    pub fn new(rt: &'a HostRuntime) -> Self {
        SystemFolder { rt, made: None }
    }

    /// Whether a file can be made beside the one of this name. It is taken away again.
    pub fn has_room_beside(&mut self, name: &str) -> Result<bool, AllocError> {
        for number in 0..MOST_BESIDE {
            let beside = name_beside(self.rt.alloc(), name, number)?;
            match self.create(beside.as_str(), b"") {
                Made::Whole => {
                    self.take_away(beside.as_str());
                    return Ok(true);
                }
                Made::Taken => {}
                Made::Failed => return Ok(false),
            }
        }
        Ok(false)
    }

    fn take_away(&mut self, name: &str) {
        self.made = None;
        let _ = fs::remove_file(self.rt, name);
    }
}

impl<'a> Folder for SystemFolder<'a> {
    ghost is_written = { λ _ _ _. Unit {0} };

    ghost holds = { λ _ _ _. Unit {0} };

    ghost has_held = { λ _ _ _. ⊥ };

    fn create(&mut self, name: &str, text: &[u8]) -> Made {
        let mut file = match File::create_new(self.rt, name) {
            Ok(file) => file,
            Err(error) if error.kind() == io::ErrorKind::AlreadyExists => return Made::Taken,
            Err(_) => return Made::Failed,
        };
        let is_whole = file.write_all(text).is_ok();
        self.made = Some(file);
        if !is_whole {
            self.take_away(name);
            return Made::Failed;
        }
        Made::Whole
    }

    fn flush(&mut self, name: &str) -> bool {
        let is_flushed = match &self.made {
            Some(file) => file.sync_all().is_ok(),
            None => false,
        };
        if !is_flushed {
            self.take_away(name);
        }
        is_flushed
    }

    fn rename(&mut self, from: &str, to: &str) -> bool {
        let is_renamed = fs::rename(self.rt, from, to).is_ok();
        if !is_renamed {
            self.take_away(from);
        }
        self.made = None;
        is_renamed
    }
}

/// What the file of this name holds, and where the best plan is to be put that is found.
pub fn shelf_of<'s, 'f>(
    rt: &'s HostRuntime,
    name: &'s str,
    file: &mut Option<File>,
) -> Result<Shelf<'s, SystemFolder<'s>>, FileFault<'f>> {
    let before = match file {
        Some(file) => held(rt, file)?,
        None => Vec::new(rt.alloc()),
    };
    let mut folder = SystemFolder::new(rt);
    match folder.has_room_beside(name) {
        Ok(true) => Ok(Shelf::at(rt.alloc(), folder, name, before)),
        Ok(false) => Err(FileFault::Unwritten(Sink::Plan)),
        Err(_) => Err(FileFault::Memory),
    }
}

/// What a file holds; nothing where that is more than any plan's text.
fn held<'a>(rt: &HostRuntime, file: &mut File) -> Result<Vec<u8>, FileFault<'a>> {
    match read_all(rt.alloc(), file, PLAN_LIMIT, Source::Plan) {
        Ok(bytes) => Ok(bytes),
        Err(Fault::TooLong(_)) => Ok(Vec::new(rt.alloc())),
        Err(Fault::Memory) => Err(FileFault::Memory),
        Err(_) => Err(FileFault::Unwritten(Sink::Plan)),
    }
}
