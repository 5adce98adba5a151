//! The words of the rows.
use pure_rows::Row;

/// What a row of a folder makes or removes under a name.
#[derive(Clone, Copy)]
pub(crate) enum Making {
    File,
    Numbered,
    Link,
    Folder,
    Remove,
    RemoveFolder,
}

/// What a row of a folder says of the library's answer.
#[derive(Clone, Copy)]
pub(crate) enum Asking {
    Names,
    Count,
    NoNames,
    Text,
    NumberedText,
    Fault,
    ShutFile,
    ShutFolder,
}

/// What a row of a folder says.
#[derive(Clone, Copy)]
pub(crate) enum FolderWord {
    Making(Making),
    Many,
    Asking(Asking),
}

/// What a row of memory and standard output says.
#[derive(Clone, Copy)]
pub(crate) enum MemoryWord {
    Library,
    Sink,
    WriteAll,
    Print,
}

/// The words of a folder, with how many fields a row of each has at least and at most.
static FOLDER_WORDS: [(&[u8], usize, usize, FolderWord); 15] = [
    (b"file", 3, 3, FolderWord::Making(Making::File)),
    (b"numbered", 3, 3, FolderWord::Making(Making::Numbered)),
    (b"link", 3, 3, FolderWord::Making(Making::Link)),
    (b"folder", 2, 2, FolderWord::Making(Making::Folder)),
    (b"remove", 2, 2, FolderWord::Making(Making::Remove)),
    (
        b"remove-folder",
        2,
        2,
        FolderWord::Making(Making::RemoveFolder),
    ),
    (b"many", 2, 2, FolderWord::Many),
    (b"names", 1, usize::MAX, FolderWord::Asking(Asking::Names)),
    (b"count", 2, 2, FolderWord::Asking(Asking::Count)),
    (b"no-names", 1, 1, FolderWord::Asking(Asking::NoNames)),
    (b"text", 4, 4, FolderWord::Asking(Asking::Text)),
    (
        b"numbered-text",
        4,
        4,
        FolderWord::Asking(Asking::NumberedText),
    ),
    (b"fault", 4, 4, FolderWord::Asking(Asking::Fault)),
    (b"shut-file", 2, 2, FolderWord::Asking(Asking::ShutFile)),
    (b"shut-folder", 1, 1, FolderWord::Asking(Asking::ShutFolder)),
];

/// The words of memory and standard output, with the same.
static MEMORY_WORDS: [(&[u8], usize, usize, MemoryWord); 4] = [
    (b"library", 3, usize::MAX, MemoryWord::Library),
    (b"sink", 4, usize::MAX, MemoryWord::Sink),
    (b"write-all", 7, 7, MemoryWord::WriteAll),
    (b"print", 2, 2, MemoryWord::Print),
];

/// Whether the row begins with the text, and has so many fields.
fn is_row_of(row: &Row, text: &[u8], least: usize, most: usize) -> bool {
    row.field(0) == text && least <= row.len() && row.len() <= most
}

/// The word of a row of a folder.
pub(crate) fn folder_word(row: &Row) -> Option<FolderWord> {
    for (text, least, most, word) in FOLDER_WORDS {
        if is_row_of(row, text, least, most) {
            return Some(word);
        }
    }
    None
}

/// The word of a row of memory and standard output.
pub(crate) fn memory_word(row: &Row) -> Option<MemoryWord> {
    for (text, least, most, word) in MEMORY_WORDS {
        if is_row_of(row, text, least, most) {
            return Some(word);
        }
    }
    None
}
