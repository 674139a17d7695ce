// Sensitive roles with their Ack roles, and AC records.
ghost use Rattle.std.specs.Prelude.{◌≡◌, ◌<◌, length, []};
ghost use Rattle.record.specs.Record.{record_at};
ghost use Rattle.tables.specs.laws.Tables.{pairs_of};
ghost use Rattle.tables.specs.Check.{suits_pair, pair_number};
ghost use Rattle.tables.specs.laws.Group.{number_behind, step_of};
ghost use Rattle.tables.specs.laws.Groups.{pairs as pairs_group, pairs_most, pick_pair};
ghost use Rattle.tables.specs.laws.Reading.{judged_by, Judging, PairsGone};

use crate::{House, Pairs, judged, or_else, rising};
use class::SUBJECT_ALL;
use expression::{Role, ascending};
use numbers::{CLASS, MOST_ACCESS, MOST_SENSITIVE, PAIR_BYTES};
use record::{Pair, Record, read_record};

fn pairs_most(access: bool) -> usize
    ensures { result ≡ pairs_most access }
{
    if access { MOST_ACCESS } else { MOST_SENSITIVE }
}

// The pair of a record of the command.
fn pick_pair(access: bool, r: Record) -> Option<Pair>
    ensures { result ≡ pick_pair access r }
{
    match r {
        Record::Sensitive(p) => if access { None } else { Some(p) },
        Record::Access(p) => if access { Some(p) } else { None },
        _ => None,
    }
}

impl House {
    // Whether the role r may stand: in 0x15 we hold it and it is sensitive, in 0x14 its class is subject-all. Where start
    // records of 0x15 stand before it, as many credentials and sensitive roles are theirs, and the search begins behind them.
    fn suits_pair(&self, access: bool, r: Role, start: usize) -> bool
        requires { Judging self.now }
        ensures { result ≡ suits_pair access (judged_by self.now) r }
    {
        if !access {
            return self.names.class_of(r.name) == SUBJECT_ALL;
        }
        self.holds_from(r, start) & self.sensitive.has_from(r, start)
    }

    // The class rules for a sensitive role and its Ack or AC role: zero where they are kept.
    #[tactic(auto, unfolding(crate::specs::Check::pair_number))]
    pub(crate) fn pair_number(&self, access: bool, x: Pair, start: usize) -> u64
        requires { Judging self.now }
        ensures { result ≡ pair_number access (judged_by self.now) x }
    {
        if self.suits_pair(access, x.role, start) {
            return 0;
        }
        CLASS
    }

    // The pair of the command at an index behind others, so many, the last of which is last; none where another record stands.
    #[tactic(auto, unfolding(crate::specs::laws::Group::behind, crate::specs::laws::Groups::pairs))]
    fn next_pair(
        &self,
        s: &[u8],
        at: usize,
        access: bool,
        count: usize,
        last: Pair,
    ) -> Result<Option<Pair>, u64>
        requires { (at < length s.now) × Judging self.now }
        ensures { result ≡ step_of (pairs_group access)
            (number_behind (pairs_group access) (pair_number access (judged_by self.now)) count last) (record_at s.now at) }
    {
        let Some(x) = pick_pair(access, read_record(s, at)?) else {
            return Ok(None);
        };
        let up = (count == 0) | ascending(last.role, x.role);
        let k = or_else(
            self.pair_number(access, x, count),
            rising(up, count, pairs_most(access)),
        );
        judged(k, x)
    }

    // The pairs of a command from an index on. The index behind them.
    pub(crate) fn read_pairs(
        &self,
        s: &[u8],
        start: usize,
        access: bool,
        pairs: &mut Pairs,
    ) -> Result<usize, u64>
        requires { Judging self.now × (pairs_of pairs.old ≡ []) }
        ensures { PairsGone (judged_by self.now) access s.now start result pairs.new }
    {
        let zero = Role { entity: 0, name: 0 };
        let mut last = Pair {
            role: zero,
            other: zero,
        };
        let mut at = start;
        while at < s.len() {
            let Some(x) = self.next_pair(s, at, access, pairs.count, last)? else {
                return Ok(at);
            };
            pairs.push(x);
            last = x;
            at += PAIR_BYTES;
        }
        Ok(at)
    }
}
