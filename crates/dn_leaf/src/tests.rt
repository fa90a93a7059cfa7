ghost use Rattle.std.specs.Prelude.{◌≡◌};

use crate::{Drawer, Exhausted, LeafPass};
use dn_memory::NoMemory;
use std::alloc::Global;
use std::test::Fail;
use std::thread;
use std::thread::Threads;

#[test]
fn a_single_leaf_goes_to_one_of_two(rt: HostRuntime) -> Result<(), Fail> {
    let (drawer, mut passes) = Drawer::make(rt.alloc(), 1, 2).expect(&rt, "memory");
    let mut first = passes.pop().expect(&rt, "two passes");
    let mut second = passes.pop().expect(&rt, "two passes");
    assert_eq!(rt; drawer.draw(&mut second), Ok(0));
    assert_eq!(rt; drawer.draw(&mut first), Err(Exhausted { seen: 1 }));
    assert_eq!(rt; drawer.draw(&mut first), Err(Exhausted { seen: 1 }));
    assert_eq!(rt; drawer.look(&mut second), 2);
    drawer.join(&mut second, first);
    assert_eq!(rt; drawer.draw(&mut second), Err(Exhausted { seen: 2 }));
    Ok(())
}

// Draws five times, and tells the leaves drawn.
fn draw_five(alloc: Global, drawer: &Drawer, mut pass: LeafPass) -> Result<Vec<u32>, NoMemory>
    requires { pass.drawer ≡ drawer.now }
{
    let mut leaves = Vec::new(alloc);
    for _ in 0..5 {
        if let Ok(leaf) = drawer.draw(&mut pass) {
            leaves.push(leaf)?;
        }
    }
    Ok(leaves)
}

#[test]
fn eight_threads_draw_each_leaf_once(rt: HostRuntime) -> Result<(), Fail> {
    let alloc: Global = rt.alloc();
    let (drawer, passes) = Drawer::make(alloc, 32, 8).expect(&rt, "memory");
    let drawer = &drawer;
    let each = thread::map_vec(&rt, passes, &|pass| draw_five(alloc, drawer, pass))?;
    let mut all = Vec::new(alloc);
    for leaves in each {
        all.extend_from_slice(leaves.expect(&rt, "memory").as_slice())?;
    }
    all.sort()?;

    // Of the 40 draws 32 gave a leaf, and so 8 were Exhausted.
    assert_eq!(rt; all.len(), 32);
    for i in 0..32u32 {
        assert!(rt; all.get(i as usize) == Some(&i));
    }
    Ok(())
}
