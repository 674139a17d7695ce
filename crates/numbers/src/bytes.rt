// How many bytes commands and records have ("Bytes" in document 01).

// "An expression is 18 bytes"
pub const EXPRESSION_BYTES: usize = 18;

// "0x01 credential, 23 bytes"; 0x12 and 0x13 have its operands
pub const CREDENTIAL_BYTES: usize = 23;

// "0x02 open, 6"
pub const OPEN_BYTES: usize = 6;

// "0x03 edge with a new child, 24"
pub const NEW_EDGE_BYTES: usize = 24;

// "0x04 edge between old nodes, 4"
pub const OLD_EDGE_BYTES: usize = 4;

// "0x05 mark, 2"
pub const MARK_BYTES: usize = 2;

// "0x06 end, 1"
pub const END_BYTES: usize = 1;

// "0x10 self (one number ..)"
pub const SELF_BYTES: usize = 3;

// "0x11 name, class byte"
pub const NAME_BYTES: usize = 4;

// "0x14 sensitive role, its Ack role; 0x15 sensitive role, its AC role"
pub const PAIR_BYTES: usize = 9;
