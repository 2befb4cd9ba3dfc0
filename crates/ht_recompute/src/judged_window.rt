//! What a walk is judged by: a window of any kind.
ghost use Rattle.std.specs.Prelude.{◌≡◌, ◌<◌};
ghost use Rattle.ht_recompute.specs.JudgedKinds.{JudgedKind};

use crate::kept_frames::KeptFrames;
use ht_tree::{Status3, WalkNode};

/// A window that judges the nodes of its walks. Whatever it keeps is room: no answer depends on what was asked before.
pub trait JudgedWindow<'c>: Sized + Drop {
    /// What judges the nodes, what a token weighs, and the circuit of its frames. No call changes them.
    ghost kind: { Self → JudgedKind };

    /// What a token weighs: the number of frames.
    fn token_weight(&self) -> u32
        ensures unit { result ≡ (kind self.now).unit }
        ensures some { 0 < result };

    /// What the decisions at a node make of its window.
    fn status(&mut self, node: &WalkNode) -> Status3
        ensures status { result ≡ (kind self.old).judge.status node.now }
        ensures kind { kind self.new ≡ kind self.old };

    /// Whether `Two` may decide a variable at a node.
    fn may_two(&self, node: &WalkNode, var: u32) -> bool
        ensures { result ≡ (kind self.now).judge.two node.now var };

    /// Whether `Three` may decide a variable at a node.
    fn may_three(&self, node: &WalkNode, var: u32) -> bool
        ensures { result ≡ (kind self.now).judge.three node.now var };

    /// Whether a window comes under a node that is sure.
    fn may_go_before(&mut self, node: &WalkNode) -> bool
        ensures before { result ≡ (kind self.old).judge.before node.now }
        ensures kind { kind self.new ≡ kind self.old };

    /// Gives its frames back.
    fn into_kept(self) -> KeptFrames<'c>
        ensures { result.circuit ≡ (kind self).circuit };
}
