// Whether a negotiation is damaged.
#![tactic(auto)]

ghost use Rattle.std.specs.Prelude.{◌≡◌, true, List, ◌≤◌, ◌<◌};
ghost use Rattle.rt0.specs.laws.Pool.{credentials};
ghost use Rattle.class.specs.laws.Names.{names_of, Ascending};
ghost use Rattle.graph.specs.declared.Edge.{Edge};
ghost use Rattle.graph.specs.laws.Graph.{nodes_of, edges_of};
ghost use Rattle.states.specs.laws.Brings.{NodesFormed};
ghost use Rattle.justification.specs.laws.Inside.{Inside};
ghost use Rattle.tables.specs.laws.Tables.{tables_of};
ghost use Rattle.tables.specs.laws.Decoding.{Housed};
ghost use Rattle.negotiation.specs.laws.State.{state_of};
ghost use Rattle.negotiation.specs.State.{within};
ghost use Rattle.damage.specs.laws.Damage.{state_with};
ghost use Rattle.damage.specs.Damage.{records_sound, edges_justified, graph_sound, sound as sound_of};
ghost use Rattle.numbers.specs.Sizes.{MOST-EDGES, MOST-NAMES, MOST-NODES};

use class::Names;
use edges::edges_fit;
use header::{count_sound, counts_agree, empty_sound, end_sound, header_sound};
use justification::{edges_implied, links_justified};
use negotiation::{Header, Negotiation};
use nodes::{nodes_fit, primary_sound};
use shown::shown_fit;
use states::state_of;
use tables::House;

mod edges;
mod header;
mod nodes;
mod shown;

// Nodes, primary and credentials, whatever the edges.
fn records_sound(names: &Names, n: &Negotiation) -> bool
    requires { (names.now.count ≤ MOST-NAMES) × Ascending names.now.count names.now.name × (0 < n.now.nodes.count)
        × (n.now.nodes.count ≤ 128) × (n.now.shown.count ≤ 128) }
    ensures { (es : List Edge) → result ≡ records_sound (names_of names.now)
        (state_with n.now.header (nodes_of n.now.nodes) es (credentials n.now.shown)) }
{
    if !nodes_fit(names, &n.nodes) {
        return false;
    }
    if !primary_sound(&n.header, n.nodes.node(0)) {
        return false;
    }
    shown_fit(names, &n.shown)
}

// Every edge is justified, whatever the header.
fn edges_justified(n: &Negotiation) -> bool
    requires { (n.now.nodes.count ≤ 128) × (n.now.edges.count ≤ 256) × (n.now.shown.count ≤ 128)
        × NodesFormed (nodes_of n.now.nodes) × Inside n.now.nodes.count n.now.edges }
    ensures { (h : Header) → result ≡ edges_justified
        (state_with h (nodes_of n.now.nodes) (edges_of n.now.edges) (credentials n.now.shown)) }
{
    if !edges_implied(&n.nodes, &n.edges, &n.shown) {
        return false;
    }
    links_justified(&n.nodes, &n.edges)
}

// Where a node stands.
fn graph_sound(names: &Names, n: &Negotiation) -> bool
    requires { (names.now.count ≤ MOST-NAMES) × Ascending names.now.count names.now.name × (0 < n.now.nodes.count)
        × (n.now.nodes.count ≤ MOST-NODES) × (n.now.edges.count ≤ MOST-EDGES) × (n.now.shown.count ≤ 128) }
    ensures { result ≡ graph_sound (names_of names.now)
        (state_with n.now.header (nodes_of n.now.nodes) (edges_of n.now.edges) (credentials n.now.shown)) }
{
    let h = &n.header;
    if !count_sound(h.messages) {
        return false;
    }
    if !records_sound(names, n) {
        return false;
    }
    if !edges_fit(h, &n.nodes, &n.edges) {
        return false;
    }
    if !edges_justified(n) {
        return false;
    }
    end_sound(state_of(&n.nodes, &n.edges, 0), h.end, h.idle)
}

// Whether a negotiation is not damaged, by the tables of its house.
pub fn sound(house: &House, n: &Negotiation) -> bool
    requires { Housed house.now × (within (state_of n.now) ≡ true) }
    ensures { result ≡ sound_of (tables_of house.now) (state_of n.now) }
{
    let h = &n.header;
    if !header_sound(house.own, h) {
        return false;
    }
    if !counts_agree(h.messages) {
        return false;
    }
    if n.nodes.count == 0 {
        return empty_sound(h, n.edges.count, n.shown.count);
    }
    graph_sound(&house.names, n)
}
