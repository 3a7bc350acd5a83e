//! The first fault of a list.
ghost use Rattle.std.specs.Prelude.{◌≡◌, ◌↔◌, List, [], ◌++◌, Some, None, Bool, IsTrue};
ghost use Rattle.type_fault.specs.First.{IsFirst, is_before, site, goes_before, earlier, earliest};
ghost use Rattle.type_fault.specs.Faults.{number_of, place_of};
ghost use Rattle.type_fault.specs.declared.fault.TypeFault.{TypeFault};

use crate::TypeFault;
use smv_tree::Place;

/// Whether a place is on an earlier line, or on the same line in an earlier column.
fn is_before(p: Place, q: Place) -> bool
    ensures { result ≡ is_before p q }
{
    p.line < q.line || p.line == q.line && p.column < q.column
}

/// The place of a fault; what has none counts as before all places.
fn site(fault: &TypeFault) -> Place
    ensures { result ≡ site (place_of fault.now) }
{
    match fault.place() {
        Some(place) => place,
        None => Place { line: 0, column: 0 },
    }
}

/// Whether a fault is at an earlier place, or at the same place with a smaller number.
#[tactic(auto, unfolding(crate::specs::First::goes_before))]
fn goes_before(f: &TypeFault, g: &TypeFault) -> bool
    ensures { result ≡ goes_before f.now g.now }
{
    let p = site(f);
    let q = site(g);
    is_before(p, q) || !is_before(q, p) && f.number() < g.number()
}

/// The first of two faults, of which the former is listed before the latter.
pub fn earlier(first: Option<TypeFault>, second: Option<TypeFault>) -> Option<TypeFault>
    ensures { result ≡ earlier first second }
{
    match (first, second) {
        (Some(f), Some(g)) => {
            if goes_before(&g, &f) {
                Some(g)
            } else {
                Some(f)
            }
        }
        (Some(f), None) => Some(f),
        (None, second) => second,
    }
}

/// What `earliest` finds is the first fault of a list, and it finds none only in an empty list; that of
/// two lists one behind the other is the earlier of both.
pub fn first_fault_is_the_first()
    ensures first { (fs : List TypeFault) (f : TypeFault) → (earliest fs ≡ Some f) ↔ IsFirst fs f }
    ensures none { (fs : List TypeFault) → (earliest fs ≡ None) ↔ (fs ≡ []) }
    ensures both { (fs gs : List TypeFault) → earliest (fs ++ gs) ≡ earlier (earliest fs) (earliest gs) }
{}
