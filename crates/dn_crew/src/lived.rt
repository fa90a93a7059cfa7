use crate::posts::Posts;
use dn_board::Board;
use dn_turns::TurnPass;

/// What came of a live run: a pass that stands for all, how many letters entry 0 of the board has, and the posts.
#[derive(Drop)]
pub struct Lived {
    pub pass: TurnPass<Board>,
    pub first: u64,
    pub posts: Posts,
}
