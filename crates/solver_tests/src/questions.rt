ghost use Rattle.gates.specs.Nodes.{Grows};

use gates::{Gates, Lit, Lits, lit_not};
use sat_link::{Budget, Kept, Verdict};
use std::alloc::{AllocError, Global};
use std::test::Fail;

/// Two inputs, and their conjunction.
#[derive(Drop)]
struct Joined {
    g: Gates,
    a: Lit,
    b: Lit,
    both: Lit,
}

fn two_inputs(alloc: Global) -> Result<Joined, AllocError> {
    let mut g = Gates::new(alloc)?;
    let a = g.input()?;
    let b = g.input()?;
    if a.node() >= g.nodes() || b.node() >= g.nodes() {
        return Err(AllocError);
    }
    let both = g.and(a, b)?;
    Ok(Joined { g, a, b, both })
}

/// Whether the conjunction and the negation of an input are refused, by the last line of the log.
fn is_refused(alloc: Global, kept: &mut Kept, j: &Joined) -> Result<bool, AllocError>
    requires { Grows kept.old.nodes j.now.g }
    ensures { Grows kept.new.nodes j.now.g }
{
    let nodes = j.g.nodes();
    if j.a.node() >= nodes || j.both.node() >= nodes || j.a.node() == j.both.node() {
        return Ok(false);
    }
    let want = Lits::from_vec(vec![in alloc; j.both, lit_not(j.a)]?);
    match kept.ask(&j.g, &want, Budget::Unset)? {
        Verdict::Yes(_) => Ok(false),
        Verdict::No(id) => Ok(id == kept.log().count()),
        Verdict::Spent(_) => Ok(false),
    }
}

/// Whether both inputs are true where the conjunction is wanted.
fn is_found(alloc: Global, kept: &mut Kept, j: &Joined) -> Result<bool, AllocError>
    requires { Grows kept.old.nodes j.now.g }
    ensures { Grows kept.new.nodes j.now.g }
{
    let nodes = j.g.nodes();
    if j.a.node() >= nodes || j.b.node() >= nodes || j.both.node() >= nodes {
        return Ok(false);
    }
    let want = Lits::from_vec(vec![in alloc; j.both]?);
    match kept.ask(&j.g, &want, Budget::Of(1))? {
        Verdict::Yes(bits) => Ok(bits.value(j.a) && bits.value(j.b)),
        Verdict::No(_) => Ok(false),
        Verdict::Spent(_) => Ok(false),
    }
}

#[test]
fn conjunction_of_two_inputs(rt: HostRuntime) -> Result<(), Fail> {
    let alloc = rt.alloc();
    let j = two_inputs(alloc)?;
    let mut kept = Kept::new(alloc)?;
    assert!(rt; is_refused(alloc, &mut kept, &j)?);
    assert!(rt; is_found(alloc, &mut kept, &j)?);
    assert_eq!(rt; kept.counts().clauses, 4);
    assert_eq!(rt; kept.counts().gates, 1);
    Ok(())
}
