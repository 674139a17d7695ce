// Why a call is refused ("From the input" and "From the state" in document 01; from 30 on, document 02).

// A lent length outside the sizes.
pub const LENGTH: u64 = 1;

// An unknown or cut command, a missing end, bytes after the end.
pub const COMMAND: u64 = 2;

// An operand of wrong form.
pub const OPERAND: u64 = 3;

// A class rule broken.
pub const CLASS: u64 = 5;

// Tables out of order, repeated, self missing, or a size passed.
pub const ORDER: u64 = 6;

// At begin: the other end is zero or self.
pub const OTHER: u64 = 7;

// The negotiation is damaged.
pub const DAMAGED: u64 = 20;

// Not that side's turn.
pub const TURN: u64 = 21;

// Already ended.
pub const ENDED: u64 = 22;

// Any command but open while no node stands, or open later.
pub const OPENING: u64 = 23;

// No such node.
pub const ABSENT: u64 = 24;

// Edge form wrong, or node, edge or credential already present.
pub const PRESENT: u64 = 25;

// Not justified.
pub const UNJUSTIFIED: u64 = 26;

// Already processed by the sender.
pub const PROCESSED: u64 = 27;

// A size passed.
pub const FULL: u64 = 28;

// An output buffer shorter than the tables to be written.
pub const OUTPUT: u64 = 30;
