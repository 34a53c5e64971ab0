//! What a file is that holds no ledger, by its first bytes.
ghost use Rattle.std.specs.Prelude.{◌≡◌};
ghost use Rattle.std.specs.List.{list_all};
ghost use Rattle.tb_edge_file.specs.Kinds.{begins, begins_at, is_text, unrecorded_kind, journal_kind, file_kind};

/// What a file is that holds no ledger.
#[derive(Clone, Copy, Debug, PartialEq, Eq)]
pub enum FileKind {
    /// It was not read.
    Unread,
    /// It has no byte.
    Empty,
    /// A dump, by its head.
    Dump,
    /// A journal without a record, and nothing after its latch.
    NoRecord,
    /// A journal whose first latch is closed, with bytes after it.
    Closed,
    /// The first bytes of a journal, up to a place before its first record.
    Begun,
    /// A ledger, by its first record.
    Ledger,
    /// Moments with request frames, the first of which registers a client.
    Script,
    /// Text.
    Text,
    /// Other bytes.
    Other,
}

/// The bytes that a dump begins with.
pub const DUMP: &[u8] = b"TBSDUMP1";

/// A journal without a record.
pub const NO_RECORD: &[u8] = b"TBJRNL02\x5a\xc3\x96\x69";

/// The bytes that a journal begins with.
pub const JOURNAL: &[u8] = b"TBJRNL02";

/// The bytes that a ledger's first record begins with.
pub const HEAD: &[u8] = b"TBK1";

/// The bytes of the header of a request to register after its client.
pub const REGISTER: &[u8] = b"\0\0\0\0\0\0\0\0\0\0\0\0\x02\0\0\0\0\0\0\0\0\0\0\0\0\0\0\0\0\0\0\0";

/// The offset of a journal's first record: after its first bytes, a latch, a length and a checksum.
const RECORD_AT: usize = 19;

/// How many of a file's first bytes are read: those of a moment and the header of a request.
pub(crate) const FIRST_BYTES: usize = 56;

/// Returns whether a byte may be in a text: a tab, an end of a line, or any byte that is no control character.
fn is_text(byte: u8) -> bool
    ensures { result ≡ is_text byte }
{
    byte >= 32 && byte != 127 || byte == 9 || byte == 10 || byte == 13
}

/// Returns whether bytes begin with a prefix.
fn begins(prefix: &[u8], bytes: &[u8]) -> bool
    ensures { result ≡ begins prefix.now bytes.now }
{
    bytes.starts_with(prefix)
}

/// Returns whether a prefix is at this offset of bytes.
fn begins_at(at: usize, prefix: &[u8], bytes: &[u8]) -> bool
    ensures { result ≡ begins_at at prefix.now bytes.now }
{
    if bytes.len() < at {
        return false;
    }
    begins(prefix, &bytes[at..])
}

/// Returns whether all bytes may be in a text.
fn is_all_text(first: &[u8]) -> bool
    ensures { result ≡ list_all is_text first.now }
{
    first.iter().all(|byte| is_text(*byte))
}

/// The kind of a journal without a record, which begins with these bytes.
fn unrecorded_kind(first: &[u8]) -> FileKind
    ensures { result ≡ unrecorded_kind first.now }
{
    if first.len() > NO_RECORD.len() {
        return FileKind::Closed;
    }
    FileKind::NoRecord
}

/// The kind of a journal with these first bytes: a part of its first 8, or all 8 and bytes after them.
fn journal_kind(first: &[u8]) -> FileKind
    ensures { result ≡ journal_kind first.now }
{
    if begins(NO_RECORD, first) {
        return unrecorded_kind(first);
    }
    if begins(first, NO_RECORD) {
        return FileKind::Begun;
    }
    if begins_at(RECORD_AT, HEAD, first) {
        return FileKind::Ledger;
    }
    FileKind::Other
}

/// The kind of a file with these first bytes, which holds no ledger.
pub(crate) fn kind_of(first: &[u8]) -> FileKind
    ensures { result ≡ file_kind first.now }
{
    if first.is_empty() {
        return FileKind::Empty;
    }
    if begins(DUMP, first) {
        return FileKind::Dump;
    }
    if begins(JOURNAL, first) || begins(first, JOURNAL) {
        return journal_kind(first);
    }
    if begins_at(24, REGISTER, first) {
        return FileKind::Script;
    }
    if is_all_text(first) {
        return FileKind::Text;
    }
    FileKind::Other
}
