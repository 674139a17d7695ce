// A move is written and carried out: first its credentials, then its command.
ghost use Rattle.numbers.specs.Sizes.{MOST-MESSAGE-BYTES};
ghost use Rattle.std.specs.Prelude.{◌≡◌, true, ◌+◌, ◌≤◌, ◌<◌, length};
ghost use Rattle.expression.specs.Bytes.{pasted};
ghost use Rattle.rules.specs.laws.Table.{chosen};
ghost use Rattle.negotiation.specs.laws.State.{state_of};
ghost use Rattle.negotiation.specs.State.{within};
ghost use Rattle.message.specs.Message.{bytes_of};
ghost use Rattle.moves.specs.laws.Own.{commands_of};
ghost use Rattle.moves.specs.Carried.{carried, has_room_for};
ghost use Rattle.reply.specs.laws.Outgoing.{one_if, room_by, on_at, shows};

use applied::step;
use message::{Command, size_of, write_command};
use moves::Outgoing;
use negotiation::Negotiation;
use numbers::CREDENTIAL_BYTES;
use rt0::Pool;
use word::wide;

// 1 where the flag is on.
fn one_if(flag: u8) -> usize
    ensures counted { result ≡ one_if flag }
    ensures few { result ≤ 1 }
{
    if flag == 1 { 1 } else { 0 }
}

// How many credentials of a pool are on.
fn count_on(pool: &Pool, on: &[u8; 128]) -> usize
    requires { pool.now.count ≤ 128 }
    ensures counted { result ≡ length (chosen pool.now on.now) }
    ensures few { result ≤ 128 }
{
    let mut n = 0;
    for k in 0..pool.count {
        n += one_if(on[k]);
    }
    n
}

// How many bytes a move takes.
pub fn size_of_outgoing(out: &Outgoing) -> usize
    requires { out.now.pool.count ≤ 128 }
    ensures size { result ≡ length (bytes_of (commands_of out.now)) }
    ensures few { result ≤ 2968 }
{
    CREDENTIAL_BYTES * count_on(&out.pool, &out.on) + size_of(out.command)
}

// Whether a command has room among so many nodes, edges and credentials shown.
fn has_room(nodes: usize, edges: usize, shown: usize, c: Command) -> bool
    ensures { result ≡ room_by nodes edges shown c }
{
    match c {
        Command::Show(_) => shown < Negotiation::SHOWN,
        Command::Open(_) => nodes < Negotiation::NODES,
        Command::Bring(b) => {
            (wide(b.parent) < nodes) & (nodes < Negotiation::NODES) & (edges < Negotiation::EDGES)
        }
        Command::Join(_) => edges < Negotiation::EDGES,
        Command::Mark(i) => wide(i) < nodes,
        Command::End => true,
    }
}

// Whether every command of a move has room where it stands.
pub fn room_for(n: &Negotiation, out: &Outgoing) -> bool
    requires { (within (state_of n.now) ≡ true) × (out.now.pool.count ≤ 128) }
    ensures { result ≡ has_room_for n.now.header.side (state_of n.now) (commands_of out.now) }
{
    let shown = n.shown.count + count_on(&out.pool, &out.on);
    if Negotiation::SHOWN < shown {
        return false;
    }
    has_room(n.nodes.count, n.edges.count, shown, out.command)
}

// Credential k of a pool is written and shown, if its flag is on.
fn show_at(s: &mut [u8], at: usize, n: &mut Negotiation, pool: &Pool, flag: u8, k: usize)
    requires { (k < 128) × (has_room_for 0 (state_of n.old) (shows (on_at pool.now flag k)) ≡ true)
        × (at + length (bytes_of (shows (on_at pool.now flag k))) ≤ length s.old) }
    ensures shown { state_of n.new ≡ carried 0 (state_of n.old) (shows (on_at pool.now flag k)) }
    ensures written { s.new ≡ pasted s.old at (bytes_of (shows (on_at pool.now flag k))) }
{
    if flag != 1 {
        return;
    }
    let c = pool.credential(k);
    write_command(s, at, Command::Show(c));
    *n = n.show(c);
}

// All that are on.
fn show_all(s: &mut [u8], from: usize, n: &mut Negotiation, pool: &Pool, on: &[u8; 128])
    requires { (pool.now.count ≤ 128) × (has_room_for 0 (state_of n.old) (shows (chosen pool.now on.now)) ≡ true)
        × (from + length (bytes_of (shows (chosen pool.now on.now))) ≤ MOST-MESSAGE-BYTES) × (MOST-MESSAGE-BYTES ≤ length s.old) }
    ensures shown { state_of n.new ≡ carried 0 (state_of n.old) (shows (chosen pool.now on.now)) }
    ensures written { s.new ≡ pasted s.old from (bytes_of (shows (chosen pool.now on.now))) }
{
    let mut at = from;
    for k in 0..pool.count {
        show_at(s, at, n, pool, on[k], k);
        at += CREDENTIAL_BYTES * one_if(on[k]);
    }
}

// A move is written from an index, and the negotiation goes on by it.
pub fn carry(s: &mut [u8], at: usize, n: &mut Negotiation, out: &Outgoing)
    requires { (within (state_of n.old) ≡ true) × (out.now.pool.count ≤ 128)
        × (has_room_for n.old.header.side (state_of n.old) (commands_of out.now) ≡ true)
        × (at + length (bytes_of (commands_of out.now)) ≤ MOST-MESSAGE-BYTES) × (MOST-MESSAGE-BYTES ≤ length s.old) }
    ensures led { state_of n.new ≡ carried n.old.header.side (state_of n.old) (commands_of out.now) }
    ensures written { s.new ≡ pasted s.old at (bytes_of (commands_of out.now)) }
{
    let side = n.header.side;
    show_all(s, at, n, &out.pool, &out.on);
    let behind = at + CREDENTIAL_BYTES * count_on(&out.pool, &out.on);
    write_command(s, behind, out.command);
    step(n, side, out.command);
}
