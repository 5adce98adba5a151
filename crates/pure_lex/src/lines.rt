//! Lines and columns of a source.
ghost use Rattle.std.specs.Prelude.{◌≡◌, ◌<◌, ◌≤◌, ◌-◌, ◌^◌, length, take};
ghost use Rattle.pure_lex.specs.Lines.{line_behind, column_behind};

/// The line and the column of this place, both from 1, with columns in bytes. Takes no memory.
pub fn line_col(source: &[u8], at: u32) -> (u32, u32)
    requires within { at ≤ length source.now }
    requires small { length source.now < 2 ^ 32 - 1 }
    ensures line { result.0 ≡ line_behind (take at source.now) }
    ensures column { result.1 ≡ column_behind (take at source.now) }
{
    let mut line = 1;
    let mut column = 1;
    for b in &source[..at as usize] {
        if *b == b'\n' {
            line += 1;
            column = 1;
        } else {
            column += 1;
        }
    }
    (line, column)
}
