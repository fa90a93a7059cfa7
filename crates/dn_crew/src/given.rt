ghost use Rattle.std.specs.Prelude.{◌≡◌, IfOk};
ghost use Rattle.dn_crew.specs.Given.{reads_of};

use crate::order::Order;
use crate::posts::Posts;
use dn_memory::NoMemory;
use dn_wire::ServerId;
use std::alloc::Global;
use std::marker::Model;

/// For each post of a live run its author, what it had read, and how many letters it has. Contracts see them as that list.
#[derive(Drop)]
pub struct Reads {
    held: Vec<(ServerId, u64, u64)>,
}

impl Model for Reads {
    ghost use Rattle.std.specs.Prelude.{List, ℕ};
    ghost use Rattle.dn_wire.specs.declared.ids.ServerId.{ServerId};

    ghost Value = { List (ServerId × ℕ × ℕ) };

    ghost view = { λ r. r.held.items };
}

impl Reads {
    /// What stands of the posts.
    pub(crate) fn of(alloc: Global, posts: &Posts) -> Result<Reads, NoMemory>
        ensures { IfOk result (λ r. r ≡ reads_of posts.now) }
    {
        let mut held = Vec::new(alloc);
        for (_, post) in posts.get() {
            held.push((post.author, post.read, post.letters.get().len() as u64))?;
        }
        Ok(Reads { held })
    }

    /// The list.
    pub fn get(&self) -> &[(ServerId, u64, u64)]
        ensures { result.now ≡ self.now }
    {
        &self.held
    }
}

/// What a crew gave: the order of a race; or how many letters entry 0 of a live run's board has, and what stands of its posts.
#[derive(Drop)]
pub enum Given {
    Race(Order),
    Live { first: u64, reads: Reads },
}
