//! What is kept of all blocks.
ghost use Rattle.std.specs.Prelude.{◌≡◌};
ghost use Rattle.ht_order.specs.Counts.{is_below, is_over, may_go, own_rate, prior_of, rate_of, takes_part, tally_of};
ghost use Rattle.ht_order.specs.Chunks.{after_block, any_quick, is_quick, new_order, with_chunk, with_lists, with_mark, with_tally};

use crate::block::Block;
use crate::rate::Rate;
use crate::tally::Tally;

// What each block counts as before its first chunk, in classes for a unit of work: nothing is tried while bred vectors
// still bring more.
pub const TARGETS_PRIOR: u32 = 300;

pub const SETS_PRIOR: u32 = 50;

pub const SHORT_RAILS_PRIOR: u32 = 30;

pub const RAILS_PRIOR: u32 = 5;

pub const LONG_RAILS_PRIOR: u32 = 2;

// Rails with more work take part once those with less bring fewer classes than this for a unit of work.
pub const RAILS_BELOW: u32 = 20;

pub const LONG_RAILS_BELOW: u32 = 2;

// What bred vectors count as where other blocks found lists since.
pub const FED: u32 = 20;

// Where no block brings so many, bred vectors have half of the work: they stand still, and then jump.
pub const SLOW: u32 = 5;

/// What a chunk brought.
#[derive(Clone, Copy, Debug)]
pub struct Chunk {
    /// How many classes it decided.
    pub classes: u32,
    /// What it spent.
    pub work: u64,
    /// What it brought in the end: of bred vectors in the last quarter, of others in all.
    pub rate: Rate,
    /// It found lists that detect something.
    pub lists: bool,
    /// There is nothing left that the block wasn't asked.
    pub done: bool,
}

/// The work at a moment, of all blocks and of bred vectors.
#[derive(Clone, Copy, Debug)]
pub struct Mark {
    pub all: u64,
    pub vectors: u64,
}

/// What is kept of all blocks: what each brought, and the work.
#[derive(Clone, Copy, Debug)]
pub struct Order {
    pub(crate) vectors: Tally,
    pub(crate) one_frame: Tally,
    pub(crate) targets: Tally,
    pub(crate) short_rails: Tally,
    pub(crate) rails: Tally,
    pub(crate) long_rails: Tally,
    pub(crate) sets: Tally,
    // other blocks found lists since bred vectors had their last chunk
    pub(crate) fed: bool,
    // the work of all blocks
    pub(crate) all: u64,
    // the moment since when no block brings much
    pub(crate) mark: Option<Mark>,
}

// What a block counts as before its first chunk.
fn prior_of(block: Block) -> u32
    ensures { result ≡ prior_of block }
{
    match block {
        Block::Vectors | Block::OneFrame => 0,
        Block::Targets => TARGETS_PRIOR,
        Block::ShortRails => SHORT_RAILS_PRIOR,
        Block::Rails => RAILS_PRIOR,
        Block::LongRails => LONG_RAILS_PRIOR,
        Block::Sets => SETS_PRIOR,
    }
}

// What a block brought of late, or counts as before its first chunk.
fn own_rate(tally: Tally, prior: u32) -> Rate
    ensures { result ≡ own_rate tally prior }
{
    if tally.tried {
        tally.rate
    } else {
        Rate::per_unit(prior)
    }
}

impl Order {
    /// Before any chunk.
    pub fn new() -> Order
        ensures { result ≡ new_order }
    {
        Order {
            vectors: Tally::new(),
            one_frame: Tally::new(),
            targets: Tally::new(),
            short_rails: Tally::new(),
            rails: Tally::new(),
            long_rails: Tally::new(),
            sets: Tally::new(),
            fed: false,
            all: 0,
            mark: None,
        }
    }

    // What is kept of a block.
    pub(crate) fn tally(&self, block: Block) -> Tally
        ensures { result ≡ tally_of self.now block }
    {
        match block {
            Block::Vectors => self.vectors,
            Block::OneFrame => self.one_frame,
            Block::Targets => self.targets,
            Block::ShortRails => self.short_rails,
            Block::Rails => self.rails,
            Block::LongRails => self.long_rails,
            Block::Sets => self.sets,
        }
    }

    // Whether a block is over.
    pub(crate) fn is_over(&self, block: Block) -> bool
        ensures { result ≡ is_over self.now block }
    {
        let tally = self.tally(block);
        match block {
            Block::Sets => tally.done,
            _ => tally.done || tally.is_dry(),
        }
    }

    // What bred vectors bring.
    fn rate_of_vectors(&self) -> Rate
        ensures { result ≡ rate_of self.now Block.Vectors }
    {
        let own = own_rate(self.vectors, prior_of(Block::Vectors));
        let fed = Rate::per_unit(FED);
        if self.fed && fed.is_higher(own) {
            fed
        } else {
            own
        }
    }

    // What a block brings.
    pub(crate) fn rate(&self, block: Block) -> Rate
        ensures { result ≡ rate_of self.now block }
    {
        match block {
            Block::Vectors => self.rate_of_vectors(),
            _ => own_rate(self.tally(block), prior_of(block)),
        }
    }

    // Whether a block brings fewer classes for a unit of work.
    fn is_below(&self, block: Block, classes: u32) -> bool
        ensures { result ≡ is_below self.now block classes }
    {
        Rate::per_unit(classes).is_higher(self.rate(block))
    }

    // Whether a block takes part.
    fn takes_part(&self, block: Block) -> bool
        ensures { result ≡ takes_part self.now block }
    {
        match block {
            Block::Rails => {
                self.is_over(Block::ShortRails) || self.is_below(Block::ShortRails, RAILS_BELOW)
            }
            Block::LongRails => {
                self.is_over(Block::Rails) || self.is_below(Block::Rails, LONG_RAILS_BELOW)
            }
            _ => true,
        }
    }

    // Whether a block may go.
    pub(crate) fn may_go(&self, block: Block) -> bool
        ensures { result ≡ may_go self.now block }
    {
        !self.is_over(block) && self.takes_part(block)
    }

    // Whether a block that may go brings no less than what counts as slow.
    fn is_quick(&self, block: Block) -> bool
        ensures { result ≡ is_quick self.now block }
    {
        self.may_go(block) && !self.is_below(block, SLOW)
    }

    // Whether some block is quick.
    fn any_quick(&self) -> bool
        ensures { result ≡ any_quick self.now }
    {
        self.is_quick(Block::Vectors)
            || self.is_quick(Block::OneFrame)
            || self.is_quick(Block::Targets)
            || self.is_quick(Block::ShortRails)
            || self.is_quick(Block::Rails)
            || self.is_quick(Block::LongRails)
            || self.is_quick(Block::Sets)
    }

    // Keeps another tally for a block.
    fn set_tally(&mut self, block: Block, tally: Tally)
        ensures { self.new ≡ with_tally self.old block tally }
    {
        match block {
            Block::Vectors => self.vectors = tally,
            Block::OneFrame => self.one_frame = tally,
            Block::Targets => self.targets = tally,
            Block::ShortRails => self.short_rails = tally,
            Block::Rails => self.rails = tally,
            Block::LongRails => self.long_rails = tally,
            Block::Sets => self.sets = tally,
        }
    }

    // Adds a chunk to the tally of its block, and to all work.
    fn add_chunk(&mut self, block: Block, chunk: Chunk)
        ensures { self.new ≡ with_chunk self.old block chunk }
    {
        let tally = self
            .tally(block)
            .after(chunk.classes, chunk.work, chunk.rate, chunk.done);
        self.set_tally(block, tally);
        self.all = self.all.saturating_add(chunk.work);
    }

    // Feeds bred vectors with lists that another block found; their own chunk takes them all.
    fn feed(&mut self, block: Block, lists: bool)
        ensures { self.new ≡ with_lists self.old block lists }
    {
        match block {
            Block::Vectors => self.fed = false,
            _ => {
                if lists {
                    self.fed = true;
                    self.vectors.dry = 0;
                }
            }
        }
    }

    // Sets the mark.
    fn set_mark(&mut self)
        ensures { self.new ≡ with_mark self.old }
    {
        if self.any_quick() {
            self.mark = None;
        } else if self.mark.is_none() {
            self.mark = Some(Mark {
                all: self.all,
                vectors: self.vectors.work,
            });
        }
    }

    /// Notes a chunk of a block.
    pub fn note(&mut self, block: Block, chunk: Chunk)
        ensures { self.new ≡ after_block self.old block chunk }
    {
        self.add_chunk(block, chunk);
        self.feed(block, chunk.lists);
        self.set_mark();
    }

    /// The work of all blocks.
    pub fn work(&self) -> u64
        ensures { result ≡ self.now.all }
    {
        self.all
    }
}
