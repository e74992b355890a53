// The numbers that C gets for an answer. Those below 16 are the program's own, with its causes.

/// The call did what it says.
pub const DONE: u32 = 0;

/// A line of a configuration, a catalog or a schedule isn't in the grammar.
pub const MALFORMED: u32 = 3;

/// There are more than 16,777,216 bytes.
pub const TOO_LONG: u32 = 6;

/// There was no memory.
pub const NO_MEMORY: u32 = 7;

/// All messages together would have more than 268,435,456 bytes. The world takes no more steps.
pub const SENT_LIMIT: u32 = 8;

/// The slot is closed.
pub const CLOSED: u32 = 16;

/// The slot is open already.
pub const IN_USE: u32 = 17;

/// There is less room than bytes. Nothing was written.
pub const TOO_SMALL: u32 = 18;

/// There is nothing now.
pub const NOTHING: u32 = 19;

/// The configuration has an event.
pub const HAS_EVENTS: u32 = 20;

/// The configuration has no site of this number.
pub const NO_SITE: u32 = 21;

/// The bytes are no journal.
pub const NOT_OURS: u32 = 22;

/// A content of the journal is no record.
pub const BAD_RECORD: u32 = 23;

/// With the journal's records the value of an item would name too many outcomes.
pub const TOO_MANY_OUTCOMES: u32 = 24;

/// No epoch is left.
pub const EPOCHS_SPENT: u32 = 25;

/// The journal has no room for one more record.
pub const FULL: u32 = 26;

/// The text is no program.
pub const BAD_TEXT: u32 = 27;

/// The program may not run.
pub const BAD_PROGRAM: u32 = 28;

/// The bytes are no message.
pub const BAD_MESSAGE: u32 = 29;

/// The message goes to another site, or the item is at another one.
pub const NOT_HERE: u32 = 30;

/// There is no such site as the message comes from.
pub const NO_SENDER: u32 = 31;

/// The write isn't the one that was asked for.
pub const NOT_NEXT: u32 = 32;

/// No item has this name.
pub const UNKNOWN_NAME: u32 = 33;

/// What is to be one event is none or several, or declares something.
pub const NOT_ONE_EVENT: u32 = 34;

/// There was no memory within the step, and the world takes no more steps.
pub const BROKEN_OFF: u32 = 35;

/// The world takes no more steps.
pub const ENDED: u32 = 36;

/// Records wait to be written into the host's file, and the item isn't shown before they are.
pub const UNWRITTEN: u32 = 37;

/// The later configuration isn't one that the one before has grown to.
pub const NOT_GROWN: u32 = 38;

/// The output was held before.
pub const AGAIN: u32 = 39;

/// An outcome of the transaction was learnt before.
pub const KNOWN: u32 = 40;

/// The text is no condition.
pub const BAD_CASES: u32 = 41;
