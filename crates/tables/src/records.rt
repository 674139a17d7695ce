// The check of whole tables, and what they hold.
ghost use Rattle.std.specs.Prelude.{◌≡◌, ◌<◌, length, IfOk};
ghost use Rattle.record.specs.Record.{record_at};
ghost use Rattle.tables.specs.Check.{sized as sized_of, read_tables, check_of};
ghost use Rattle.tables.specs.Tables.{unread};
ghost use Rattle.tables.specs.laws.Tables.{tables_of};
ghost use Rattle.tables.specs.laws.Check.{outcome_of};
ghost use Rattle.tables.specs.laws.Decoding.{first_record, Housed, Filled};

use crate::names::read_names;
use crate::stored::read_stored;
use crate::{House, Pairs};
use numbers::{CLASS, LENGTH, MOST_TABLES_BYTES, ORDER, SELF_BYTES};
use record::{Record, read_record};

// Whether tables may have so many bytes.
#[tactic(auto, unfolding(crate::specs::Check::sized))]
fn sized(n: usize) -> bool
    ensures { result ≡ sized_of n }
{
    (0 < n) & (n <= MOST_TABLES_BYTES)
}

// The first record. Where it is not self, it is out of order; before that, by class rules, no head is issuer-def or issuer-all, and nothing is held.
fn own_of(s: &[u8]) -> Result<u16, u64>
    requires { 0 < length s.now }
    ensures { result ≡ first_record (record_at s.now 0) }
{
    match read_record(s, 0)? {
        Record::Own(e) => Ok(e),
        Record::IssuerStored(_) => Err(CLASS),
        Record::Access(_) => Err(CLASS),
        _ => Err(ORDER),
    }
}

impl House {
    // The records of tables go into an empty house. Where they are refused, what it then holds does not count.
    pub fn fill(&mut self, s: &[u8]) -> Result<(), u64>
        requires { tables_of self.old ≡ unread }
        ensures { Filled s.now result self.new }
    {
        if !sized(s.len()) {
            return Err(LENGTH);
        }
        self.own = own_of(s)?;
        let at = read_names(s, SELF_BYTES, &mut self.names)?;
        let at = read_stored(s, at, &self.names, false, &mut self.issuer)?;
        let at = read_stored(s, at, &self.names, true, &mut self.subject)?;
        let mut pairs = Pairs::empty();
        let at = self.read_pairs(s, at, false, &mut pairs)?;
        self.sensitive = pairs;
        let mut pairs = Pairs::empty();
        let at = self.read_pairs(s, at, true, &mut pairs)?;
        self.access = pairs;
        self.left_over(s, at)
    }
}

// The tables that bytes hold, or why they are refused.
pub fn decode(s: &[u8]) -> Result<House, u64>
    ensures { (outcome_of result ≡ read_tables s.now) × IfOk result Housed }
{
    let mut house = House::empty();
    house.fill(s)?;
    Ok(house)
}

// Zero where tables are accepted, else the refusal number.
#[tactic(auto, unfolding(crate::specs::Check::check_of))]
pub fn check(s: &[u8]) -> u64
    ensures { result ≡ check_of s.now }
{
    if !sized(s.len()) {
        return LENGTH;
    }
    let mut house = House::empty();
    match house.fill(s) {
        Ok(()) => 0,
        Err(k) => k,
    }
}
