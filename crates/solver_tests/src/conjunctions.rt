use gates::{Bits, Gates, Lit, Truths, lit_not};
use std::alloc::{AllocError, Global};
use std::process::Abort;
use std::test::Fail;

/// Asks for a conjunction, and compares the answer and the number of nodes after it.
fn answers(
    rt: &impl Abort,
    g: &mut Gates,
    x: Lit,
    y: Lit,
    answer: Lit,
    nodes: u64,
) -> Result<(), AllocError> {
    assert!(rt; x.node() < g.nodes());
    assert!(rt; y.node() < g.nodes());
    let got = g.and(x, y)?;
    assert!(rt; got == answer);
    assert!(rt; g.nodes() == nodes);
    Ok(())
}

#[test]
fn conjunctions(rt: HostRuntime) -> Result<(), Fail> {
    let mut g = Gates::new(rt.alloc())?;
    let a = g.input()?;
    let b = g.input()?;
    let both = Lit::positive(3);
    answers(&rt, &mut g, a, b, both, 4)?;
    answers(&rt, &mut g, b, a, both, 4)?;
    answers(&rt, &mut g, a, lit_not(a), Lit::FALSE, 4)?;
    answers(&rt, &mut g, lit_not(b), Lit::TRUE, lit_not(b), 4)?;
    answers(&rt, &mut g, lit_not(b), lit_not(a), Lit::positive(4), 5)?;
    assert_eq!(rt; g.count(), 2);
    Ok(())
}

/// The values of an exclusive or, for the inputs' values.
fn exclusive(rt: &impl Abort, alloc: Global, x: bool, y: bool) -> Result<(), AllocError> {
    let mut g = Gates::new(alloc)?;
    let a = g.input()?;
    let b = g.input()?;
    let both = g.and(a, b)?;
    let neither = g.and(lit_not(a), lit_not(b))?;
    let differ = g.and(lit_not(both), lit_not(neither))?;
    let inputs = Truths::from_vec(vec![in alloc; false, x, y, false, false, false]?).copy(alloc)?;
    assert!(rt; inputs.len() as u64 == g.nodes());
    let bits = Bits::of(alloc, &g, &inputs)?.copy(alloc)?;
    assert!(rt; bits.as_slice().len() as u64 == g.nodes());
    assert!(rt; bits.value(Lit::TRUE));
    assert!(rt; bits.value(lit_not(both)) != (x && y));
    assert!(rt; bits.value(differ) == (x != y));
    Ok(())
}

#[test]
fn values(rt: HostRuntime) -> Result<(), Fail> {
    exclusive(&rt, rt.alloc(), false, false)?;
    exclusive(&rt, rt.alloc(), false, true)?;
    exclusive(&rt, rt.alloc(), true, false)?;
    exclusive(&rt, rt.alloc(), true, true)?;
    Ok(())
}
