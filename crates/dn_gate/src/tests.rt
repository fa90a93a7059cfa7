ghost use Rattle.std.specs.Prelude.{◌≡◌, ◌<◌, ◌≤◌, ◌∷◌, [], Some, None, true, IfOk, IfSome, All};
ghost use Rattle.dn_gate.specs.Pass.{IsReady, IsNew, IsClosingOf};

use crate::steps::{Drawn, claim, deposit, draw, mark};
use crate::{AlreadyClosed, Closing, Gate, GatePass, NotYet, Told};
use dn_memory::NoMemory;
use dn_wire::ClientId;
use std::alloc::{AllocError, Global};
use std::test::Fail;
use std::thread;
use std::thread::Threads;

#[test]
fn one_pass_submits_closes_and_collects(rt: HostRuntime) -> Result<(), Fail> {
    let (gate, mut passes): (Gate<u64>, _) = Gate::make(rt.alloc(), 3, &[ClientId(2)], 1)?;
    let mut pass = passes.pop().expect(&rt, "one pass");
    assert_eq!(rt; pass.number(), 0);
    assert!(rt;
        matches!(
            gate.submit(&mut pass, ClientId(2), 7),
            Told::Repeat { back: 7 }
        )
    );
    assert!(rt;
        matches!(
            gate.submit(&mut pass, ClientId(0), 8),
            Told::Included { place: 0 }
        )
    );
    let closing = gate.close(&mut pass).expect(&rt, "it was open");
    assert_eq!(rt; closing.count(), 1);
    assert!(rt;
        matches!(
            gate.submit(&mut pass, ClientId(1), 9),
            Told::Late {
                seen: 4294967297,
                back: 9
            }
        )
    );
    assert!(rt;
        matches!(
            gate.close(&mut pass),
            Err(AlreadyClosed { seen: 4294967298 })
        )
    );
    match gate.collect(rt.alloc(), &mut pass, closing) {
        Ok(values) => assert!(rt; values.as_slice() == [(ClientId(0), 8)].as_slice()),
        Err(_) => panic!(rt; "a value is missing"),
    }
    Ok(())
}

// A gate, its last pass, and the others.
fn make_gate(
    alloc: Global,
    clients: u32,
    passes: u32,
) -> Result<(Gate<u64>, Vec<GatePass<u64>>, GatePass<u64>), NoMemory>
    requires { (clients ≤ 512) × (1 ≤ passes) × (passes ≤ 64) }
    ensures { IfOk result (λ r. (r.0.clients ≡ clients) × All (IsNew r.0) r.1.items × IsNew r.0 r.2) }
{
    let (gate, mut passes) = Gate::make(alloc, clients, &[], passes)?;
    let Some(last) = passes.pop() else {
        unreachable!()
    };
    Ok((gate, passes, last))
}

// Makes the first two steps of a submission: true where the client is included.
fn claim_and_draw(gate: &Gate<u64>, pass: &mut GatePass<u64>, client: ClientId) -> bool
    requires { (client.0 < gate.now.clients) × IsNew gate.now pass.old }
    ensures { result ≡ true → (pass.new.gate ≡ gate.now) × (pass.new.unmarked ≡ Some client.0) × (pass.new.held ≡ (client.0, None) ∷ []) }
{
    if !claim(gate, pass, client) {
        return false;
    }
    match draw(gate, pass, client) {
        Drawn::Included { place: _ } => true,
        Drawn::Late { seen: _ } => false,
    }
}

// Makes the last two.
fn deposit_and_mark(gate: &Gate<u64>, pass: &mut GatePass<u64>, client: ClientId, value: u64)
    requires { (client.0 < gate.now.clients) × (pass.old.gate ≡ gate.now) × (pass.old.unmarked ≡ Some client.0) × (pass.old.held ≡ (client.0, None) ∷ []) }
{
    deposit(gate, pass, client, value);
    mark(gate, pass, client);
}

// How many values are missing, and the closing again.
fn find_missing(
    alloc: Global,
    gate: &Gate<u64>,
    pass: &mut GatePass<u64>,
    closing: Closing<u64>,
) -> Option<(Closing<u64>, u32)>
    requires { (pass.old.gate ≡ gate.now) × IsReady pass.old × IsClosingOf pass.old closing }
    ensures { IfSome result (λ r. (pass.new.gate ≡ gate.now) × IsReady pass.new × IsClosingOf pass.new r.0) }
{
    let Err(refused) = gate.collect(alloc, pass, closing) else {
        return None;
    };
    let (closing, why) = refused;
    match why {
        NotYet::Pending { missing } => Some((closing, missing)),
        NotYet::NoMemory => None,
    }
}

#[test]
fn a_closing_waits_for_a_value_that_was_drawn(rt: HostRuntime) -> Result<(), Fail> {
    let (gate, mut passes, mut second) = make_gate(rt.alloc(), 1, 2)?;
    let mut first = passes.pop().expect(&rt, "two passes");
    assert!(rt; claim_and_draw(&gate, &mut first, ClientId(0)));
    let closing = gate.close(&mut second).expect(&rt, "it was open");
    assert_eq!(rt; closing.count(), 1);
    let found = find_missing(rt.alloc(), &gate, &mut second, closing);
    let (closing, missing) = found.expect(&rt, "the value is missing");
    assert_eq!(rt; missing, 1);
    deposit_and_mark(&gate, &mut first, ClientId(0), 8);
    match gate.collect(rt.alloc(), &mut second, closing) {
        Ok(values) => assert!(rt; values.as_slice() == [(ClientId(0), 8)].as_slice()),
        Err(_) => panic!(rt; "no value is missing"),
    }
    Ok(())
}

#[test]
fn two_passes_are_joined(rt: HostRuntime) -> Result<(), Fail> {
    let (gate, mut passes, mut second) = make_gate(rt.alloc(), 1, 2)?;
    let first = passes.pop().expect(&rt, "two passes");
    gate.join(&mut second, first);
    assert_eq!(rt; second.number(), 0);
    gate.settle(&mut second);
    Ok(())
}

// Submits 64 clients, and answers with those that are included and how many came late.
fn submit_some(
    alloc: Global,
    gate: &Gate<u64>,
    mut pass: GatePass<u64>,
) -> Result<(Vec<ClientId>, u32), NoMemory>
    requires { (gate.now.clients ≡ 512) × IsNew gate.now pass }
{
    let mut included = Vec::new(alloc);
    let mut late = 0u32;
    let first = pass.number().min(7) * 64;
    for i in 0..64 {
        let client = ClientId(first + i);
        match gate.submit(&mut pass, client, client.0 as u64 + 1000) {
            Told::Included { place: _ } => included.push(client)?,
            Told::Late { seen: _, back: _ } => late = late.saturating_add(1),
            Told::Repeat { back: _ } => {}
        }
    }
    Ok((included, late))
}

// The same with each pass in a thread of its own.
fn submit_all<R: Threads + Sync>(
    rt: &R,
    alloc: Global,
    gate: &Gate<u64>,
    passes: Vec<GatePass<u64>>,
) -> Result<Vec<Result<(Vec<ClientId>, u32), NoMemory>>, AllocError>
    requires clients { gate.now.clients ≡ 512 }
    requires passes { All (IsNew gate.now) passes.items }
{
    thread::map_vec(rt, passes, &|pass| submit_some(alloc, gate, pass))
}

// Closes the gate with a pass that did nothing before.
fn close_first(
    gate: &Gate<u64>,
    mut pass: GatePass<u64>,
) -> Result<(GatePass<u64>, Closing<u64>), AlreadyClosed>
    requires { IsNew gate.now pass }
    ensures { IfOk result (λ r. (r.0.gate ≡ gate.now) × IsReady r.0 × IsClosingOf r.0 r.1) }
{
    let closing = gate.close(&mut pass)?;
    Ok((pass, closing))
}

#[test]
fn eight_threads_submit_while_a_ninth_closes(rt: HostRuntime) -> Result<(), Fail> {
    let alloc: Global = rt.alloc();
    let (gate, passes, last) = make_gate(alloc, 512, 9)?;
    let gate = &gate;
    let shared = &rt;
    let (each, closed) = thread::join(
        &rt,
        move || submit_all(shared, alloc, gate, passes),
        move || close_first(gate, last),
    );
    let (mut last, closing) = closed.expect(&rt, "it was open");
    let count = closing.count();
    let Ok(values) = gate.collect(alloc, &mut last, closing) else {
        panic!(rt; "a value is missing")
    };
    let mut included = Vec::new(alloc);
    let mut late = 0u32;
    for one in each? {
        let (clients, came_late) = one?;
        included.extend_from_slice(clients.as_slice())?;
        late = late.saturating_add(came_late);
    }
    included.sort()?;
    assert_eq!(rt; included.len(), count as usize);
    assert_eq!(rt; late.saturating_add(count), 512);
    assert_eq!(rt; values.len(), included.len());
    for (value, client) in values.iter().zip(included.iter()) {
        assert!(rt; value.0 == *client && value.1 == client.0 as u64 + 1000);
    }
    Ok(())
}
