//! Searches of 1 frame, 2 frames and so on, with one budget for all of them.
ghost use Rattle.std.specs.Prelude.{◌≡◌, ◌<◌, ◌≤◌, ℕ, IfOk};
ghost use Rattle.ht_net.specs.Frames.Rows.{Rows};
ghost use Rattle.ht_tree.specs.Walk.Searches.{Guide};
ghost use Rattle.ht_forward.specs.LengthAnswers.{AreLengths, IsOneLength};

use ht_events::MAX_FRAMES;
use ht_items::Items;
use ht_net::Vectors;
use ht_tree::{MAX_BUDGET, Token};
use std::alloc::{AllocError, Global};

/// What the search of one length comes to.
#[derive(Drop)]
pub enum OneLength {
    /// A list is found.
    Found { list: Vectors },
    /// There is none: a complete walk.
    Closed { tokens: Items<Token> },
    /// The budget was spent: an open walk.
    Spent { tokens: Items<Token> },
}

/// What the searches of 1 frame, 2 frames and so on come to.
#[derive(Drop)]
pub enum Lengths {
    /// A list, and the complete walks of all shorter lengths.
    Found {
        list: Vectors,
        walks: Items<Items<Token>>,
    },
    /// The budget was spent: the walks for 1 frame, 2 frames and so on, all complete but the last.
    Spent {
        walks: Items<Items<Token>>,
    },
}

/// The search of each length.
pub trait LengthSearch {
    /// What is searched. No call changes it.
    ghost Subject: { Type 0 };

    ghost subject: { Self → Subject };

    /// What the search of so many frames goes by, and which lists it finds within a budget.
    ghost guide: { Subject → ℕ → Guide };

    ghost Finds: { Subject → ℕ → ℕ → Rows → Type 0 };

    /// Searches so many frames. Each token weighs the frames.
    ///
    /// # Errors
    /// Out of memory.
    fn search(&mut self, alloc: Global, frames: u32, budget: u64) -> Result<OneLength, AllocError>
        requires some { 0 < frames }
        requires few { frames ≤ MAX_FRAMES }
        ensures subject { subject self.new ≡ subject self.old }
        ensures answer { IfOk result (IsOneLength (guide (subject self.old) frames)
            (Finds (subject self.old) frames budget) frames budget) };
}

/// Searches 1 frame, 2 frames and so on, until a list is found or the budget is spent. A token of a search of k frames
/// weighs k, and the budget is for all searches together.
///
/// # Errors
/// Out of memory.
pub fn search_lengths<S: LengthSearch>(
    alloc: Global,
    search: &mut S,
    budget: u64,
) -> Result<Lengths, AllocError>
    requires { budget ≤ MAX_BUDGET }
    ensures subject { S.subject search.new ≡ S.subject search.old }
    ensures answer { IfOk result (AreLengths (S.guide (S.subject search.old))
        (S.Finds (S.subject search.old)) budget) }
{
    let mut walks = Vec::new(alloc);
    let mut left = budget;
    let mut frames: u32 = 1;
    'lengths: loop {
        match search.search(alloc, frames, left)? {
            OneLength::Found { list } => {
                return Ok(Lengths::Found {
                    list,
                    walks: Items::from_vec(walks),
                });
            },
            OneLength::Spent { tokens } => {
                walks.push(tokens)?;
                return Ok(Lengths::Spent {
                    walks: Items::from_vec(walks),
                });
            },
            OneLength::Closed { tokens } => {
                left -= tokens.as_slice().len() as u64 * frames as u64;
                frames += 1;
                walks.push(tokens)?;
            },
        }
    }
}
