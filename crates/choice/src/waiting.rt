// Targets at which there was nothing to do.
ghost use Rattle.std.specs.Prelude.{◌≡◌, true, false, ◌≤◌, ◌<◌};
ghost use Rattle.choice.specs.laws.Waits.{SameFlags, SameAt, SameSolutions, Unchanged};

use graph::{Edges, SOLUTION};
use states::NodeStates;
use word::wide;

// Whether two columns differ.
fn differ(a: &[u8; 128], b: &[u8; 128]) -> bool
    ensures { result ≡ false → SameFlags a.now b.now 128 }
{
    let mut found = false;
    for j in 0..128 {
        found = found | (a[j] != b[j]);
    }
    found
}

// Whether edge k brings a goal a solution at which the columns differ.
fn is_changed(edges: &Edges, failed: &[u8; 128], earlier: &[u8; 128], k: usize) -> bool
    requires { k < 256 }
    ensures { result ≡ false → SameAt edges.now.kind edges.now.child failed.now earlier.now k }
{
    if edges.kind[k] != SOLUTION {
        return false;
    }
    let c = wide(edges.child[k]);
    if 128 <= c {
        return false;
    }
    failed[c] != earlier[c]
}

// Whether the columns are alike at all solutions.
fn is_settled(edges: &Edges, failed: &[u8; 128], earlier: &[u8; 128]) -> bool
    requires { edges.now.count ≤ 256 }
    ensures { result ≡ true → SameSolutions edges.now.kind edges.now.child failed.now earlier.now edges.now.count }
{
    for k in 0..edges.count {
        if is_changed(edges, failed, earlier, k) {
            return false;
        }
    }
    true
}

// Targets below `waiting` still rest if the satisfied nodes and the solutions that failed are the same; else none is known to.
pub fn resting(edges: &Edges, states: &NodeStates, last: &NodeStates, waiting: usize) -> usize
    requires { edges.now.count ≤ 256 }
    ensures { Unchanged edges.now states.now.satisfied last.now.satisfied states.now.failed last.now.failed waiting result }
{
    if differ(&states.satisfied, &last.satisfied) {
        return 0;
    }
    if !differ(&states.failed, &last.failed) {
        return waiting;
    }
    if is_settled(edges, &states.failed, &last.failed) {
        return waiting;
    }
    0
}
