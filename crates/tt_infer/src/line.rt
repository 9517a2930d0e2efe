//! What stands in a line?

ghost use Rattle.std.specs.Prelude.{◌≡◌};
ghost use Rattle.tt_infer.specs.Lines.{channel_line, numbers_in, plain_line, row_of};

/// One to four numbers.
#[derive(Clone, Copy, PartialEq, Eq)]
pub enum FewNumbers {
    One(u32),
    Two(u32, u32),
    Three(u32, u32, u32),
    Four(u32, u32, u32, u32),
}

/// The numbers behind a keyword.
#[derive(Clone, Copy)]
pub enum LineNumbers<'a> {
    Few(FewNumbers),
    /// The processes of a cycle, two or more.
    Ring(&'a [u32]),
}

/// A line: its keyword, the numbers behind it, and whether it speaks of channels.
#[derive(Clone, Copy)]
pub struct Line<'a> {
    pub keyword: &'static [u8],
    pub numbers: LineNumbers<'a>,
    pub speaks_of_channels: bool,
}

/// The line of a keyword with few numbers, which speaks of no channel.
pub fn plain_line(keyword: &'static [u8], numbers: FewNumbers) -> Line<'static>
    ensures { row_of result ≡ plain_line keyword.now (numbers_in numbers) }
{
    Line {
        keyword,
        numbers: LineNumbers::Few(numbers),
        speaks_of_channels: false,
    }
}

/// The line of a keyword with few numbers, which speaks of channels.
pub fn channel_line(keyword: &'static [u8], numbers: FewNumbers) -> Line<'static>
    ensures { row_of result ≡ channel_line keyword.now (numbers_in numbers) }
{
    Line {
        keyword,
        numbers: LineNumbers::Few(numbers),
        speaks_of_channels: true,
    }
}
