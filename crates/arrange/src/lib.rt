// House tables from records in any order: they are split, sorted by bytes, written once each, and checked.
#![tactic(auto)]

ghost use Rattle.std.specs.Prelude.{◌≡◌, ◌<◌, ◌≤◌, length, take};
ghost use Rattle.numbers.specs.Answer.{answer_of};
ghost use Rattle.arrange.specs.Arrange.{checked_in, arrange_of, tables_left};
ghost use Rattle.arrange.specs.laws.Entries.{Entries, Ordered};
ghost use Rattle.arrange.specs.laws.Arrange.{Lays};

use crate::entries::split;
use crate::sort::sort;
use crate::write::write;
use expression::copy_in;
use numbers::{COMMAND, LENGTH, MOST_TABLES_BYTES, OUTPUT};

mod compare;
mod entries;
mod sort;
mod write;

// The first n entries are sorted.
fn order(s: &[u8], entries: &mut [usize], n: usize)
    requires { (n ≤ length entries.old) × (n ≤ 1366) × Entries s.now (take n entries.old) }
    ensures { Ordered s.now (take n entries.old) (take n entries.new) }
{
    let mut spare = [0usize; 1366];
    sort(s, &mut entries[..n], &mut spare);
}

// The records are laid out in the order of their bytes, each once. How many bytes they are; none: one is unknown or cut.
fn lay_out(s: &[u8], out: &mut [u8; 4096]) -> Option<usize>
    requires { (0 < length s.now) × (length s.now ≤ 4096) × (length out.old ≡ 4096) }
    ensures { Lays s.now out.new result }
{
    let mut entries = [0usize; 1366];
    let n = split(s, &mut entries);
    if n == 0 {
        return None;
    }
    order(s, &mut entries, n);
    Some(write(s, &entries[..n], out))
}

// Records laid out go into the tables where they pass the check and have room.
fn hand_over(laid: &[u8], tables: &mut [u8]) -> u64
    requires { length laid.now ≤ 4096 }
    ensures answered { result ≡ answer_of length (checked_in (length tables.old) laid.now) }
    ensures left { tables.new ≡ tables_left tables.old (checked_in (length tables.old) laid.now) }
{
    let k = tables::check(laid);
    if k != 0 {
        return k;
    }
    if tables.len() < laid.len() {
        return OUTPUT;
    }
    copy_in(tables, 0, laid);
    (laid.len() as u64) * 256
}

// The tables that the records make go into their buffer: 256 times their length, or a refusal number, and then nothing changes.
pub fn arrange(records: &[u8], tables: &mut [u8]) -> u64
    ensures answered { result ≡ answer_of length (arrange_of records.now (length tables.old)) }
    ensures left { tables.new ≡ tables_left tables.old (arrange_of records.now (length tables.old)) }
{
    if records.len() == 0 {
        return LENGTH;
    }
    if MOST_TABLES_BYTES < records.len() {
        return LENGTH;
    }
    let mut out = [0u8; 4096];
    let Some(n) = lay_out(records, &mut out) else {
        return COMMAND;
    };
    hand_over(&out[..n], tables)
}
