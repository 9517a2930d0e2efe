//! Flags by index, of which those past the last one are never set.

ghost use Rattle.std.specs.Prelude.{◌≡◌, slice_set};
ghost use Rattle.ttp_model.specs.Lists.{is_set};

/// Whether a flag is set: none is past the end.
pub fn has_flag(flags: &[bool], place: usize) -> bool
    ensures { result ≡ is_set flags.now place }
{
    place < flags.len() && flags[place]
}

/// Puts a flag, where it is there. Whether it was set before.
pub fn put_flag(flags: &mut [bool], place: usize, value: bool) -> bool
    ensures flags { flags.new ≡ slice_set flags.old place value }
    ensures was { result ≡ is_set flags.old place }
{
    let was = has_flag(flags, place);
    if place < flags.len() {
        flags[place] = value;
    }
    was
}
