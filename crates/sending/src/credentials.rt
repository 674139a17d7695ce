// The credentials that go before a command.
ghost use Rattle.std.specs.Prelude.{[], ◌∷◌, ◌≤◌};
ghost use Rattle.rt0.specs.laws.Pool.{credentials};
ghost use Rattle.needed.specs.Needed.{needed as needed_of};
ghost use Rattle.needed.specs.laws.Needed.{first_of, rest_of};
ghost use Rattle.tables.specs.laws.Tables.{tables_of};
ghost use Rattle.tables.specs.Public.{public_of};
ghost use Rattle.moves.specs.laws.Own.{Prepared};
ghost use Rattle.sending.specs.laws.Fresh.{Fresh};
ghost use Rattle.sending.specs.laws.Unshown.{unshown_of};
ghost use Rattle.sending.specs.laws.Sent.{Sends, direct_in, side_set_of};
ghost use Rattle.numbers.specs.Sizes.{MOST-SHOWN};

use crate::pool::part_of;
use crate::unshown::Unshown;
use expression::{Credential, Expression};
use graph::Node;
use message::Command;
use moves::{Outgoing, Preparation};
use needed::{needed, relevant, with_rest};
use negotiation::Negotiation;
use rt0::Pool;

// A command alone.
pub fn alone(command: Command) -> Outgoing
    ensures { Sends [] command result }
{
    Outgoing {
        pool: Pool::empty(),
        on: [0u8; 128],
        command,
    }
}

// One credential, unless shown.
fn with_one(shown: &Pool, c: Credential, command: Command) -> Outgoing
    requires { shown.now.count ≤ MOST-SHOWN }
    ensures { Sends (unshown_of (credentials shown.now) (c ∷ [])) command result }
{
    if shown.is_shown(shown.count, c) {
        return alone(command);
    }
    let mut pool = Pool::empty();
    pool.push(c);
    Outgoing {
        pool,
        on: [1u8; 128],
        command,
    }
}

// The direct credential of a role, unless shown. The rule that asks for it has looked whether we hold it.
pub fn direct_for(own: u16, shown: &Pool, f: Expression, command: Command) -> Outgoing
    requires { shown.now.count ≤ MOST-SHOWN }
    ensures { Sends (direct_in (credentials shown.now) own f) command result }
{
    let Expression::Role(head) = f else {
        return alone(command);
    };
    let body = Expression::Entity(own);
    with_one(shown, Credential { head, body }, command)
}

// Those of a pool behind the first ones, which are shown, that are needed for f from e. They are looked for among those that can matter for f:
// where these are not enough, neither are all, and all are needed.
fn needed_of(shown: usize, pool: &Pool, f: Expression, e: Expression, command: Command) -> Outgoing
    requires { (shown ≤ pool.now.count) × (pool.now.count ≤ 128) }
    ensures { Sends (needed_of (first_of pool.now shown) f e (rest_of pool.now shown)) command result }
{
    let flags = relevant(pool, f);
    let part = part_of(pool, shown, &flags);
    let kept = needed(&part.pool, part.shown, f, e);
    let enough = kept.holds;
    if enough {
        let on = kept.own;
        return Outgoing {
            pool: part.pool,
            on,
            command,
        };
    }
    let on = with_rest(pool.count, shown, [0u8; 128]);
    Outgoing {
        pool: *pool,
        on,
        command,
    }
}

// Those needed for node x from e, of our set for our side of it.
pub fn needed_for(
    own: &Preparation,
    n: &Negotiation,
    unshown: &mut Unshown,
    x: Node,
    e: Expression,
    command: Command,
) -> Outgoing
    requires { Prepared own.now × (n.now.shown.count ≤ MOST-SHOWN)
        × Fresh (credentials n.now.shown) own.now unshown.old.seen unshown.old.issuer unshown.old.subject }
    ensures sent { Sends (needed_of (credentials n.now.shown) x.expression e
        (unshown_of (credentials n.now.shown) (side_set_of (public_of (tables_of own.now.house)) n.now.header.side x))) command result }
    ensures fresh { Fresh (credentials n.now.shown) own.now unshown.new.seen unshown.new.issuer unshown.new.subject }
{
    let ours = x.verifier == n.header.side;
    let pool = unshown.side_pool(own, ours, &n.shown);
    needed_of(n.shown.count, &pool, x.expression, e, command)
}
