// Every limit of the database, named once.

/// The greatest count of sites. They are numbered from 0.
pub const MAX_SITES: u8 = 16;

/// The greatest count of items in a catalog. They are numbered from 0.
pub const MAX_ITEMS: usize = 1024;

/// The greatest count of items that one program may name.
pub const MAX_PROGRAM_ITEMS: u32 = 16;

/// The greatest length of an item's name, in bytes.
pub const MAX_NAME: usize = 16;

/// The greatest length of a line of text, and of a program's text, in bytes.
pub const MAX_LINE: usize = 1000;

/// The greatest length of a line of a live script, in bytes. A request is then a line of a schedule too, with its client's site.
pub const MAX_LIVE_LINE: usize = 990;

/// The greatest count of clients in a live script.
pub const MAX_CLIENTS: usize = 8;

/// The greatest count of requests of one client.
pub const MAX_REQUESTS: usize = 1000;

/// How deep the tokens of a program may nest: the greatest count of `(`, `{`, `not` and `-` before its one side that are open
/// round a token.
pub const MAX_DEPTH: u32 = 32;

/// The greatest length of an input, in bytes.
pub const MAX_INPUT: u64 = 16_777_216;

/// The greatest count of messages that one `pump` may name.
pub const MAX_PUMP: u32 = 1_000_000;

/// The greatest number of the write or sync that may be armed.
pub const MAX_CALL: u32 = 1000;

/// The least limit that a journal may have, in bytes.
pub const MIN_JOURNAL: u64 = 32;

/// The greatest limit that a journal may have, in bytes. It is the limit where none is declared.
pub const MAX_JOURNAL: u64 = 4_294_967_296;

/// The greatest length of a disk and of a log, in bytes: 2 to the 62nd power.
pub const MAX_LENGTH: u64 = 4_611_686_018_427_387_904;

/// The greatest place at which a write to a disk may end: 2 to the 40th power. Every journal ends before it.
pub const MAX_WRITE_END: u64 = 1_099_511_627_776;

/// The greatest total of encoded message bytes in a run.
pub const MAX_SENT: u64 = 268_435_456;

/// How many outcomes the values that one transaction reads may name together. Its program is then computed for at most 2,048
/// alternatives.
pub const READ_NAMES: u32 = 11;

/// How many outcomes one polyvalue may name. It has then at most 4,096 cases.
pub const HELD_NAMES: u32 = 12;

/// How many ticks a grant stands, and a coordinator waits.
pub const TICKS: u8 = 3;

/// The number that no epoch, transaction or grant is ever given.
pub const NEVER_GIVEN: u32 = 4_294_967_295;
