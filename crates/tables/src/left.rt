// What is left behind the records of all commands.
ghost use Rattle.std.specs.Prelude.{◌≡◌};
ghost use Rattle.tables.specs.Check.{class_number};
ghost use Rattle.tables.specs.laws.Reading.{judged_by, Judging};
ghost use Rattle.tables.specs.laws.Decoding.{left_of};

use crate::stored::stored_number;
use crate::{House, or_else};
use numbers::ORDER;
use record::{Record, read_record};

impl House {
    // The class rules for a record: zero where it keeps them.
    #[tactic(auto, unfolding(crate::specs::Check::class_number))]
    fn class_number(&self, r: Record) -> u64
        requires { Judging self.now }
        ensures { result ≡ class_number (judged_by self.now) r }
    {
        match r {
            Record::IssuerStored(x) => stored_number(&self.names, false, x),
            Record::SubjectStored(x) => stored_number(&self.names, true, x),
            Record::Sensitive(x) => self.pair_number(false, x, 0),
            Record::Access(x) => self.pair_number(true, x, 0),
            _ => 0,
        }
    }

    // Nothing is left at an index; the number of a record there, which is out of order.
    #[tactic(auto, unfolding(crate::specs::laws::Decoding::left_of))]
    pub(crate) fn left_over(&self, s: &[u8], at: usize) -> Result<(), u64>
        requires { Judging self.now }
        ensures { result ≡ left_of s.now at (judged_by self.now) }
    {
        if s.len() <= at {
            return Ok(());
        }
        let r = read_record(s, at)?;
        Err(or_else(self.class_number(r), ORDER))
    }
}
