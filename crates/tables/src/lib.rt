// The house tables: their check, what they hold, and what is looked up in them.
#![tactic(auto)]

ghost use Rattle.std.specs.Prelude.{◌≡◌};
ghost use Rattle.tables.specs.Check.{or_else};
ghost use Rattle.tables.specs.Tables.{unread};
ghost use Rattle.tables.specs.laws.Tables.{tables_of, pairs_of};
ghost use Rattle.tables.specs.laws.Decoding.{Housed};
ghost use Rattle.tables.specs.laws.Group.{rising as rising_of, judged_step};

use class::Names;
use numbers::ORDER;
pub use records::{check, decode};
use rt0::Pool;

mod columns;
mod left;
mod lookup;
mod names;
mod records;
mod sensitive;
mod stored;

// Pairs of roles one after the other: sensitive role i at 2 i, and its Ack or AC role at 2 i.
#[derive(Clone, Copy)]
pub struct Pairs {
    pub count: usize,
    pub roles: [u16; 64],
    pub others: [u16; 64],
}

// The tables, decoded: self, names and classes, the credentials of each storage, sensitive roles with Ack roles, AC records.
#[derive(Clone, Copy)]
pub struct House {
    pub own: u16,
    pub names: Names,
    pub issuer: Pool,
    pub subject: Pool,
    pub sensitive: Pairs,
    pub access: Pairs,
}

impl House {
    // No record of any command.
    pub fn empty() -> Self
        ensures housed { Housed result }
        ensures unread { tables_of result ≡ unread }
    {
        Self {
            own: 0,
            names: Names {
                count: 0,
                name: [0u16; 64],
                class: [0u8; 64],
            },
            issuer: Pool::empty(),
            subject: Pool::empty(),
            sensitive: Pairs::empty(),
            access: Pairs::empty(),
        }
    }
}

// A record that comes after the others of its command where up says so, there being room for it: zero, else out of order.
fn rising(up: bool, count: usize, most: usize) -> u64
    ensures { result ≡ rising_of up count most }
{
    if up & (count < most) {
        return 0;
    }
    ORDER
}

// The first number that is not zero.
fn or_else(k: u64, rest: u64) -> u64
    ensures { result ≡ or_else k rest }
{
    if k == 0 {
        return rest;
    }
    k
}

// The record x, where its number k is zero.
fn judged<T: Copy>(k: u64, x: T) -> Result<Option<T>, u64>
    ensures { result ≡ judged_step k x }
{
    if k == 0 {
        return Ok(Some(x));
    }
    Err(k)
}
