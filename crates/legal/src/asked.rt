// What the credentials of a pool prove, made once and asked many times.
ghost use Rattle.std.specs.Prelude.{◌≡◌, ℕ, [], ◌≤◌};
ghost use Rattle.rt0.specs.laws.Pool.{credentials as credentials_of};
ghost use Rattle.graph.specs.laws.Graph.{nodes_of};
ghost use Rattle.message.specs.declared.Command.TheVariants as C;
ghost use Rattle.negotiation.specs.laws.State.{state_of};
ghost use Rattle.legal.specs.laws.Proved.{ProvedBy};
ghost use Rattle.legal.specs.laws.Judged.{no_implication, implication_in, ProvedFor, Proves};
ghost use Rattle.numbers.specs.Sizes.{MOST-NODES};

use crate::justify::{is_implication, node_in};
use crate::{Implication, Proved};
use closure::{Rules, dependents};
use expression::Expression;
use graph::{Edge, Nodes};
use message::{Command, NewEdge};
use negotiation::Negotiation;
use relation::{ask, relation};
use rt0::Pool;
use rules::rules_of;

// Of no credential, and not to be asked.
pub fn nothing_proved() -> Proved
    ensures { credentials_of result.pool ≡ [] }
{
    Proved {
        pool: Pool::empty(),
        rules: Rules {
            count: 0,
            words: 0,
            head: [0; 128],
            part: [0; 512],
            first: [0; 128],
            named: [0; 260],
            src: [0; 128],
        },
        deps: [0; 260],
        rows: [0; 260],
    }
}

// Of a pool.
pub fn proved_by(pool: &Pool) -> Proved
    requires { pool.now.count ≤ 128 }
    ensures known { ProvedBy result.pool result.rules result.rows }
    ensures same { result.pool ≡ pool.now }
{
    let rules = rules_of(pool);
    let deps = dependents(&rules);
    let rows = relation(pool, &rules, &deps, &[1u8; 128]);
    Proved {
        pool: *pool,
        rules,
        deps,
        rows,
    }
}

fn no_implication() -> Implication
    ensures { result ≡ no_implication }
{
    Implication {
        parent: Expression::Goal(0),
        child: Expression::Goal(0),
    }
}

fn bring_implication(nodes: &Nodes, b: NewEdge) -> Implication
    requires { nodes.now.count ≤ MOST-NODES }
    ensures { result ≡ implication_in (nodes_of nodes.now) (C.Bring b) }
{
    Implication {
        parent: node_in(nodes, b.parent).expression,
        child: b.expression,
    }
}

fn join_implication(nodes: &Nodes, e: Edge) -> Implication
    requires { nodes.now.count ≤ MOST-NODES }
    ensures { result ≡ implication_in (nodes_of nodes.now) (C.Join e) }
{
    Implication {
        parent: node_in(nodes, e.parent).expression,
        child: node_in(nodes, e.child).expression,
    }
}

// What the edge of a command asks if it is an implication.
fn implication_of(nodes: &Nodes, c: Command) -> Implication
    requires { nodes.now.count ≤ MOST-NODES }
    ensures { result ≡ implication_in (nodes_of nodes.now) c }
{
    match c {
        Command::Show(_) => no_implication(),
        Command::Open(_) => no_implication(),
        Command::Bring(b) => bring_implication(nodes, b),
        Command::Join(e) => join_implication(nodes, e),
        Command::Mark(_) => no_implication(),
        Command::End => no_implication(),
    }
}

// Whether the credentials shown prove the edge of a command, if it is an implication: by what is known.
pub fn is_proved(n: &Negotiation, known: &Proved, c: Command) -> bool
    requires { (n.now.nodes.count ≤ MOST-NODES)
        × ((words : ℕ) × ProvedFor c known.now.pool (record known.now.rules { words = words }) known.now.rows n.now.shown) }
    ensures { Proves (state_of n.now) c result }
{
    if !is_implication(c) {
        return false;
    }
    let q = implication_of(&n.nodes, c);
    ask(
        &known.pool,
        &known.rules,
        &known.deps,
        &[1u8; 128],
        &known.rows,
        q.parent,
        q.child,
    )
}
