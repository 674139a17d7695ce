// Sorted records written once each.
ghost use Rattle.std.specs.Prelude.{◌≡◌, map, ◌+◌, ◌<◌, ◌≤◌, length, take};
ghost use Rattle.expression.specs.Bytes.{pasted};
ghost use Rattle.tables.specs.Accepted.{Rising};
ghost use Rattle.arrange.specs.Records.{joined};
ghost use Rattle.arrange.specs.Arranged.{arranged};
ghost use Rattle.arrange.specs.laws.Entries.{record_from, record_of, Place, Entries, in_order};
ghost use Rattle.arrange.specs.laws.Writing.{Fresh, Writing};

use crate::compare::less;
use crate::entries::place_of;
use expression::copy_in;
use record::size_by;

// The record at p goes into out from an index on. The index behind it.
fn write_record(s: &[u8], p: usize, out: &mut [u8], at: usize) -> usize
    requires { Place s.now p × (at + length (record_from s.now p) ≤ length out.old) }
    ensures behind { result ≡ at + length (record_from s.now p) }
    ensures written { out.new ≡ pasted out.old at (record_from s.now p) }
{
    let size = size_by(s[p]);
    let end = p + size;
    copy_in(out, at, &s[p..end]);
    at + size
}

// Whether the record of entry i comes after the one before: whether it is no repeat, the entries being sorted.
fn is_fresh(s: &[u8], entries: &[usize], i: usize) -> bool
    requires { (i < length entries.now) × Entries s.now entries.now }
    ensures { Fresh s.now entries.now i result }
{
    if i == 0 {
        return true;
    }
    less(s, entries[i - 1], entries[i])
}

// The record of entry i goes into out, unless it is a repeat. The index behind it.
fn write_next(s: &[u8], entries: &[usize], i: usize, out: &mut [u8], at: usize) -> usize
    requires { (i < length entries.now) × Entries s.now entries.now × Rising (in_order s.now) entries.now
        × Writing s.now entries.now out.old i at }
    ensures { Writing s.now entries.now out.new (i + 1) result }
{
    if !is_fresh(s, entries, i) {
        return at;
    }
    write_record(s, place_of(entries[i]), out, at)
}

// The records of sorted entries go into out, each once. How many bytes they are.
pub fn write(s: &[u8], entries: &[usize], out: &mut [u8]) -> usize
    requires { Entries s.now entries.now × Rising (in_order s.now) entries.now
        × (length (joined (map (record_of s.now) entries.now)) ≤ length out.old) }
    ensures room { result ≤ length out.old }
    ensures written { take result out.new ≡ joined (arranged (map (record_of s.now) entries.now)) }
{
    let mut at = 0;
    for i in 0..entries.len() {
        at = write_next(s, entries, i, out, at);
    }
    at
}
