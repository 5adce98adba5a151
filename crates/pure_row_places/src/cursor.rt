//! Lines and columns of places that come one behind the other.
ghost use Rattle.std.specs.Prelude.{◌≡◌, ◌<◌, ◌≤◌, ◌-◌, ◌^◌, ℕ, List, length};
ghost use Rattle.pure_row_places.specs.Cursors.{IsAt};

/// A place in a source, with its line and its column, both from 1 and columns in bytes.
#[derive(Clone, Copy)]
pub struct Cursor {
    pub at: u32,
    pub line: u32,
    pub column: u32,
}

/// The beginning of any source.
pub fn beginning() -> Cursor
    ensures is { (source : List ℕ) → IsAt source result }
    ensures start { result.at ≡ 0 }
{
    Cursor {
        at: 0,
        line: 1,
        column: 1,
    }
}

/// The cursor, or the beginning where the place is before it.
fn start_for(_source: &[u8], cursor: Cursor, at: u32) -> Cursor
    requires { IsAt _source.now cursor }
    ensures is { IsAt _source.now result }
    ensures early { result.at ≤ at }
{
    if at < cursor.at {
        return beginning();
    }
    cursor
}

/// The cursor moved to this place. The bytes between are looked at, and where the place is before it, those from the
/// beginning.
pub(crate) fn moved(source: &[u8], cursor: Cursor, at: u32) -> Cursor
    requires within { at ≤ length source.now }
    requires small { length source.now < 2 ^ 32 - 1 }
    requires from { IsAt source.now cursor }
    ensures is { IsAt source.now result }
    ensures place { result.at ≡ at }
{
    let start = start_for(source, cursor, at);
    let mut line = start.line;
    let mut column = start.column;
    for place in start.at..at {
        if source[place as usize] == b'\n' {
            line += 1;
            column = 1;
        } else {
            column += 1;
        }
    }
    Cursor { at, line, column }
}
