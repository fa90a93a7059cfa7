// The order that draws and repeats make.
ghost use Rattle.std.specs.Prelude.{◌≡◌, ◌≤◌, ◌++◌, ◌∷◌, length, map, take, drop, IfOk, OnOk};
ghost use Rattle.dn_crew.specs.Shares.{placed_of, repeat_of};

use crate::order::{Order, Ordered};
use crate::sharing::Drawn;
use dn_memory::NoMemory;
use std::alloc::Global;

fn put_draws(order: &mut Vec<Ordered>, draws: &[Drawn]) -> Result<(), NoMemory>
    ensures { OnOk result (order.new.items ≡ order.old.items ++ map placed_of draws.now) }
{
    for draw in draws {
        order.push(Ordered::Submit(draw.number))?;
    }
    Ok(())
}

fn put_repeats(order: &mut Vec<Ordered>, repeats: &[u64]) -> Result<(), NoMemory>
    ensures { OnOk result (order.new.items ≡ order.old.items ++ map repeat_of repeats.now) }
{
    for number in repeats {
        order.push(Ordered::Submit(*number))?;
    }
    Ok(())
}

/// The draws, with the closing behind `count` of them, and then the repeats.
pub(crate) fn spell(
    alloc: Global,
    draws: &[Drawn],
    count: u32,
    repeats: &[u64],
) -> Result<Order, NoMemory>
    requires { count ≤ length draws.now }
    ensures { IfOk result (λ o. o ≡ (map placed_of (take count draws.now) ++ Ordered.Close ∷ map placed_of (drop count draws.now)) ++ map repeat_of repeats.now) }
{
    let (before, after) = draws.split_at(count as usize);
    let mut order = Vec::new(alloc);
    put_draws(&mut order, before)?;
    order.push(Ordered::Close)?;
    put_draws(&mut order, after)?;
    put_repeats(&mut order, repeats)?;
    Ok(Order::of(order))
}
