// The names of the tables.
ghost use Rattle.std.specs.Prelude.{◌≡◌, ◌<◌, length, []};
ghost use Rattle.record.specs.Record.{record_at};
ghost use Rattle.class.specs.laws.Names.{names_of};
ghost use Rattle.tables.specs.laws.Group.{number_behind, step_of};
ghost use Rattle.tables.specs.laws.Groups.{names as names_group};
ghost use Rattle.tables.specs.laws.Reading.{no_number, NamesGone};

use crate::columns::push_name;
use crate::{judged, rising};
use class::{Name, Names};
use numbers::{MOST_NAMES, NAME_BYTES};
use record::{Record, read_record};

// The name at an index behind others, so many, the last of which is last; none where another record stands.
#[tactic(auto, unfolding(crate::specs::laws::Group::behind, crate::specs::laws::Groups::names))]
fn next_name(s: &[u8], at: usize, count: usize, last: Name) -> Result<Option<Name>, u64>
    requires { at < length s.now }
    ensures { result ≡ step_of names_group (number_behind names_group no_number count last) (record_at s.now at) }
{
    let Record::Named(n) = read_record(s, at)? else {
        return Ok(None);
    };
    let k = rising((count == 0) | (last.name < n.name), count, MOST_NAMES);
    judged(k, n)
}

// The names from an index on. The index behind them.
pub fn read_names(s: &[u8], start: usize, names: &mut Names) -> Result<usize, u64>
    requires { names_of names.old ≡ [] }
    ensures { NamesGone s.now start result names.new }
{
    let mut last = Name { name: 0, class: 0 };
    let mut at = start;
    while at < s.len() {
        let Some(n) = next_name(s, at, names.count, last)? else {
            return Ok(at);
        };
        push_name(names, n);
        last = n;
        at += NAME_BYTES;
    }
    Ok(at)
}
