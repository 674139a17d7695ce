// The sizes of document 01 ("Bytes", "RT0 and states", "From the state").

// "64 names"
pub const MOST_NAMES: usize = 64;

// "64 credentials of each storage"
pub const MOST_STORED: usize = 64;

// "32 sensitive roles"
pub const MOST_SENSITIVE: usize = 32;

// "32 AC records"
pub const MOST_ACCESS: usize = 32;

// "tables 1 to 4,096 bytes"
pub const MOST_TABLES_BYTES: usize = 4096;

// "message 1 to 4,096"
pub const MOST_MESSAGE_BYTES: usize = 4096;

// "reply buffer 4,096 or more"
pub const LEAST_REPLY_BYTES: usize = 4096;

// "negotiation 5,120 exactly"
pub const NEGOTIATION_BYTES: usize = 5120;

// "scratch 4,096 exactly"
pub const SCRATCH_BYTES: usize = 4096;

// "A graph has at most 128 nodes"
pub const MOST_NODES: usize = 128;

// "and 256 edges"
pub const MOST_EDGES: usize = 256;

// "and a negotiation at most 64 credentials shown so far"
pub const MOST_SHOWN: usize = 64;

// "a count above 1,027" is damage
pub const MOST_MESSAGES: u16 = 1027;

// "up to 64 credential commands" ("RT0 and states")
pub const MOST_CREDENTIALS: usize = 64;

// these "and an end (1 to 1,473 bytes ..)"
pub const MOST_CREDENTIALS_BYTES: usize = 1473;
