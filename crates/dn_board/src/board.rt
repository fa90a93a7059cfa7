ghost use Rattle.std.specs.Prelude.{◌≡◌, ◌+◌, ◌-◌, ◌≤◌, [], IfOk, IfSome, length, slice_get};
ghost use Rattle.dn_board.specs.Reads.{AreReads, last_place};

use crate::letters::{Letter, Letters};
use crate::post::Post;
use dn_memory::NoMemory;
use dn_turns::Log;
use std::alloc::Global;
use std::marker::Model;

/// A list of posts, each under a number, after the first letters. Contracts see the first letters, the posts and how many
/// posts can be added without memory.
#[derive(Drop)]
pub struct Board {
    first: Letters,
    posts: Vec<(u32, Post)>,
}

impl Model for Board {
    ghost use Rattle.std.specs.Prelude.{◌-◌, vec_len, vec_capacity};
    ghost use Rattle.dn_board.specs.Board.{BoardView};
    ghost use Rattle.dn_board.specs.Reads.{AreReads};

    ghost Value = { BoardView };

    ghost view = { λ b. record { first = b.first; posts = b.posts.items; spare = vec_capacity b.posts - vec_len b.posts } };

    ghost invariant = { λ b. AreReads b.posts.items };
}

impl Board {
    /// A board without posts, with these letters as its entry 0.
    pub fn make(alloc: Global, first: Vec<Letter>) -> Result<Board, NoMemory>
        ensures { IfOk result (λ b. (b.first ≡ first.items) × (b.posts ≡ [])) }
    {
        Ok(Board {
            first: Letters::of(first),
            posts: Vec::with_capacity(alloc, 1)?,
        })
    }

    /// The first letters.
    pub fn first(&self) -> &[Letter]
        ensures { result.now ≡ self.now.first }
    {
        self.first.get()
    }

    /// The number of entries: the first letters, which are one, and the posts.
    pub fn len(&self) -> u64
        ensures { result ≡ length self.now.posts + 1 }
    {
        self.posts.len() as u64 + 1
    }

    /// The post at this place.
    pub fn post(&self, place: u64) -> &Post
        requires { (1 ≤ place) × (place ≤ length self.now.posts) }
        ensures { IfSome (slice_get self.now.posts (place - 1)) (λ p. p.1 ≡ result.now) }
    {
        let (_, post) = &self.posts[(place - 1) as usize];
        post
    }

    /// The posts, each with the number of the pass that gave it; post j of the list has the place j + 1.
    pub fn posts(&self) -> &[(u32, Post)]
        ensures { result.now ≡ self.now.posts }
    {
        &self.posts
    }

    /// The place of the last post under the number, or 0 where there is none: what the next post under it has read.
    pub fn last(&self, number: u32) -> u64
        ensures { result ≡ last_place number self.now.posts }
    {
        let mut last = 0;
        for i in 0..self.posts.len() {
            let (by, _) = &self.posts[i];
            if *by == number {
                last = i as u64 + 1;
            }
        }
        last
    }

    /// Each post has read what stood before it last under its number.
    pub fn reads(&self)
        ensures { AreReads self.now.posts }
    {
        let _ = &self.posts;
    }
}

impl Log for Board {
    type Entry = Post;

    type Base = Letters;

    ghost use Rattle.std.specs.Prelude.{◌≡◌};
    ghost use Rattle.dn_board.specs.Reads.{last_place};

    ghost list = { λ b. b.posts };

    ghost spare = { λ b. b.spare };

    ghost base = { λ b. b.first };

    ghost fits = { λ _ posts next. next.1.read ≡ last_place next.0 posts };

    fn room(&mut self) -> Result<(), NoMemory> {
        self.posts.reserve(1)?;
        Ok(())
    }

    fn add(&mut self, number: u32, entry: Post) {
        self.posts.push_reserved((number, entry));
    }
}
