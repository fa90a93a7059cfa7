ghost use Rattle.std.specs.Prelude.{◌≡◌, ◌++◌, IfOk, OnOk, take};

use dn_board::{Letter, Letters, Post};
use dn_memory::NoMemory;
use std::alloc::Global;
use std::marker::Model;

/// The posts of a live run, each with the number of the pass that gave it. Contracts see them as that list.
#[derive(Drop)]
pub struct Posts {
    held: Vec<(u32, Post)>,
}

impl Model for Posts {
    ghost use Rattle.std.specs.Prelude.{List, ℕ};
    ghost use Rattle.dn_board.specs.declared.post.Post.{Post};

    ghost Value = { List (ℕ × Post) };

    ghost view = { λ p. p.held.items };
}

fn copy_letter(alloc: Global, letter: &Letter) -> Result<Letter, NoMemory>
    ensures { IfOk result (λ l. l ≡ letter.now) }
{
    Ok(Letter {
        from: letter.from,
        to: letter.to,
        payload: letter.payload.copy(alloc)?,
    })
}

fn copy_letters(alloc: Global, letters: &[Letter]) -> Result<Letters, NoMemory>
    ensures { IfOk result (λ l. l ≡ letters.now) }
{
    let mut copies = Vec::new(alloc);
    for letter in letters {
        copies.push(copy_letter(alloc, letter)?)?;
    }
    Ok(Letters::of(copies))
}

fn copy_post(alloc: Global, post: &Post) -> Result<Post, NoMemory>
    ensures { IfOk result (λ p. p ≡ post.now) }
{
    Ok(Post {
        author: post.author,
        read: post.read,
        letters: copy_letters(alloc, post.letters.get())?,
    })
}

impl Posts {
    /// The posts, each with its number.
    pub fn get(&self) -> &[(u32, Post)]
        ensures { result.now ≡ self.now }
    {
        &self.held
    }

    /// A second list of these posts.
    pub(crate) fn of(alloc: Global, posts: &[(u32, Post)]) -> Result<Posts, NoMemory>
        ensures { IfOk result (λ p. p ≡ posts.now) }
    {
        let mut held = Vec::new(alloc);
        for each in posts {
            held.push((each.0, copy_post(alloc, &each.1)?))?;
        }
        Ok(Posts { held })
    }
}
