// Two different statements for one place.
ghost use Rattle.std.specs.Prelude.{◌≡◌, ◌+◌, ◌<◌, ◌++◌, ◌^◌, ◌↔◌, length, slice_index_or, IfOk, IsTrue};
ghost use Rattle.dn_trace.specs.Evidence.{AreCarried, number_by};
ghost use Rattle.dn_trace.specs.Reasons.{IsTwice};
ghost use Rattle.dn_trace.specs.Trial.{round_of};

use crate::case::Case;
use crate::seeing::{is_server, place_number};
use dn_memory::NoMemory;
use dn_seal::Said;
use dn_wire::ServerId;
use std::alloc::Global;
use std::collections::BTreeMap;

/// What was said at place i of two lists, the one behind the other.
fn nth<'a>(given: &'a [Said], carried: &'a [Said], i: usize) -> &'a Said
    requires { i < length given.now + length carried.now }
    ensures { result.now ≡ slice_index_or (given.now ++ carried.now) i result.now }
{
    if i < given.len() {
        &given[i]
    } else {
        &carried[i - given.len()]
    }
}

/// The number of the judged place for which the server said this.
fn number_by(case: &Case, j: ServerId, said: &Said) -> Option<u64>
    ensures { result ≡ number_by j.0 (round_of case.now) case.now.k said.now }
{
    if is_server(j, said.signer()) {
        place_number(case.round(), case.place(), said.statement())
    } else {
        None
    }
}

/// Whether the server made two different statements for one judged place.
pub fn is_twice(alloc: Global, case: &Case, carried: &[Said], j: ServerId) -> Result<bool, NoMemory>
    requires { AreCarried case.now carried.now }
    ensures { IfOk result (λ b. IsTrue b ↔ IsTwice case.now j.0) }
{
    let given = case.given();
    // By the number of a place, where its first statement stands.
    let mut first: BTreeMap<u64, usize> = BTreeMap::new(alloc);
    for i in 0..given.len() + carried.len() {
        let said = nth(given, carried, i);
        let Some(place) = number_by(case, j, said) else {
            continue;
        };
        match first.get(&place).copied() {
            None => {
                first.insert(place, i)?;
            }
            Some(at) => {
                if !nth(given, carried, at).statement().equals(said.statement()) {
                    return Ok(true);
                }
            }
        }
    }
    Ok(false)
}
