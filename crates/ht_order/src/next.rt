//! Which block goes next.
ghost use Rattle.std.specs.Prelude.{◌≡◌};
ghost use Rattle.ht_order.specs.NextBlocks.{Covers, Goes, IsBest, IsNext, forced_block, goes_before, goes_first, is_sets, lacks_half, block_number};

use crate::block::Block;
use crate::order::Order;

// The number of a block among all.
fn block_number(block: Block) -> u32
    ensures { result ≡ block_number block }
{
    match block {
        Block::Vectors => 0,
        Block::OneFrame => 1,
        Block::Targets => 2,
        Block::ShortRails => 3,
        Block::Rails => 4,
        Block::LongRails => 5,
        Block::Sets => 6,
    }
}

// Whether a block is that of sets.
fn is_sets(block: Block) -> bool
    ensures { result ≡ is_sets block }
{
    match block {
        Block::Sets => true,
        _ => false,
    }
}

impl Order {
    // Whether the first of two blocks at the same rate goes before the other.
    fn goes_first(&self, block: Block, other: Block) -> bool
        ensures { result ≡ goes_first self.now block other }
    {
        if is_sets(block) {
            return false;
        }
        if is_sets(other) {
            return true;
        }
        let work = self.tally(block).work;
        let others = self.tally(other).work;
        if work < others {
            return true;
        }
        if others < work {
            return false;
        }
        block_number(block) < block_number(other)
    }

    // Whether a block goes before another one.
    fn goes_before(&self, block: Block, other: Block) -> bool
        ensures { result ≡ goes_before self.now block other }
    {
        let rate = self.rate(block);
        let others = self.rate(other);
        if rate.is_higher(others) {
            return true;
        }
        if others.is_higher(rate) {
            return false;
        }
        self.goes_first(block, other)
    }

    // Whether bred vectors had less than half of the work since the mark.
    fn lacks_half(&self) -> bool
        ensures { result ≡ lacks_half self.now self.now.mark }
    {
        match self.mark {
            None => false,
            Some(mark) => {
                let vectors = self.vectors.work.saturating_sub(mark.vectors);
                let all = self.all.saturating_sub(mark.all);
                2 * (vectors as u128) < (all as u128)
            }
        }
    }

    // The block that goes whatever the rates.
    fn forced(&self) -> Option<Block>
        ensures { result ≡ forced_block self.now }
    {
        let vectors = !self.is_over(Block::Vectors);
        if vectors && !self.vectors.tried {
            return Some(Block::Vectors);
        }
        if !self.is_over(Block::OneFrame) {
            return Some(Block::OneFrame);
        }
        if vectors && self.lacks_half() {
            return Some(Block::Vectors);
        }
        None
    }

    // The better of a block and of the best of others.
    #[tactic(auto, using(crate::proofs::BestLaws::better_rules))]
    fn better(&self, best: Option<Block>, block: Block) -> Option<Block>
        requires { Goes self.now best }
        ensures goes { Goes self.now result }
        ensures own { Covers self.now result block }
        ensures others { (other : Block) → Covers self.now best other
            → Covers self.now result other }
    {
        if !self.may_go(block) {
            return best;
        }
        match best {
            None => Some(block),
            Some(other) => {
                if self.goes_before(block, other) {
                    Some(block)
                } else {
                    best
                }
            }
        }
    }

    // The best block by the rates.
    #[tactic(auto, using(crate::proofs::BestLaws::best_rules))]
    fn best(&self) -> Option<Block>
        ensures { IsBest self.now result }
    {
        let best = self.better(None, Block::Vectors);
        let best = self.better(best, Block::OneFrame);
        let best = self.better(best, Block::Targets);
        let best = self.better(best, Block::ShortRails);
        let best = self.better(best, Block::Rails);
        let best = self.better(best, Block::LongRails);
        self.better(best, Block::Sets)
    }

    /// The block that goes next, or none where all are over.
    pub fn next(&self) -> Option<Block>
        ensures { IsNext self.now result }
    {
        match self.forced() {
            Some(block) => Some(block),
            None => self.best(),
        }
    }
}
