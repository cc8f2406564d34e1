// The OVSF code tree of a cell: each grant stands on a block of leaves, the codes of spreading factor 256.
ghost use Rattle.std.specs.Prelude.{◌≡◌, ℕ, ◌+◌, ◌*◌, ◌<◌, ◌≤◌, true, IfSome, option_map, Some, None, Decides, slice_index_or};
ghost use Rattle.std.specs.List.{list_all};
ghost use Rattle.rules.specs.Radio.{takes, gives, after_take, after_give};
ghost use Rattle.admission.specs.Member.{member};
ghost use Rattle.admission.specs.Tree.{rounded, free_of, free_leaves, lowest, block_for, leaves_of, InTree, moved_to, moved_out, codes, bare};
ghost use Rattle.admission.specs.TreeRules.{RoomFor, Placed, Cleared};
ghost use Rattle.admission.specs.TreeLaws;

use crate::sizes::Sizes;
use crate::{GrantSet, RadioPool};
use std::ops::Range;

// A struct with a ghost field reads the imports above it. So tree_of, which names it, is imported in the blocks below.
#[derive(Clone, Copy)]
pub struct CodeTree {
    // The grant that stands on each leaf.
    owners: [Option<u8>; 256],
    sizes: Sizes,
    ghost numbers: { (leaf grant : ℕ) → slice_index_or owners leaf None ≡ Some grant → grant < 64 },
}

// A size rounded up to a power of two.
fn width(size: u8) -> usize
    requires { (0 < size) × (size ≤ 64) }
    ensures value { result ≡ rounded size }
    ensures some { 0 < result }
{
    usize::from(size).next_power_of_two()
}

// Whether each leaf is free with the grants of the admission set given back.
fn all_free(leaves: &[Option<u8>], given: &GrantSet) -> bool
    ensures { result ≡ list_all (free_of (member given.now)) leaves.now }
{
    // Most blocks that are not free are told by their first leaf; for these the chain need not be set up.
    if let Some(Some(grant)) = leaves.first()
        && !given.contains(*grant)
    {
        return false;
    }
    leaves
        .iter()
        .all(|owner| owner.is_none_or(|grant| given.contains(grant)))
}

impl CodeTree {
    ghost use Rattle.admission.specs.Views.{tree_of};

    // A tree with nothing taken.
    pub fn new() -> Self
        ensures state { tree_of result ≡ bare }
        ensures sound { codes.sound (tree_of result) }
    {
        CodeTree {
            owners: [None; 256],
            sizes: Sizes::empty(),
        }
    }

    // The grant that stands on a leaf, if one does.
    pub fn owner(&self, leaf: u8) -> Option<u8>
        ensures { result ≡ (tree_of self.now).owner leaf }
    {
        self.owners[usize::from(leaf)]
    }

    // The leaves of the lowest free block: blocks of one width tile the tree, and the first begins at leaf 0.
    fn lowest_block(&self, width: usize, given: &GrantSet) -> Option<Range<usize>>
        requires { 0 < width }
        ensures value { result ≡ option_map (leaves_of width) (lowest (free_leaves (tree_of self.now) (member given.now)) width) }
        ensures within { IfSome result InTree }
    {
        let block = self
            .owners
            .chunks_exact(width)
            .position(|block| all_free(block, given))?;
        let start = block * width;
        Some(start..start + width)
    }

    // The leaves that a size takes with the grants of the admission set given back.
    fn block_for(&self, size: u8, given: &GrantSet) -> Option<Range<usize>>
        ensures value { result ≡ option_map (leaves_of (rounded size)) (block_for (free_leaves (tree_of self.now) (member given.now)) size) }
        ensures within { IfSome result InTree }
    {
        if size == 0 || size > 64 {
            return None;
        }
        self.lowest_block(width(size), given)
    }

    // Stands a grant on leaves.
    fn move_in(&mut self, grant: u8, leaves: Range<usize>)
        requires { (grant < 64) × InTree leaves }
        ensures owner { (tree_of self.new).owner ≡ moved_to leaves grant (tree_of self.old).owner }
        ensures sizes { self.new.sizes ≡ self.old.sizes }
    {
        self.owners[leaves].fill(Some(grant));
    }

    // Clears the leaves of a grant.
    fn move_out(&mut self, grant: u8)
        ensures owner { (tree_of self.new).owner ≡ moved_out (tree_of self.old).owner grant }
        ensures sizes { self.new.sizes ≡ self.old.sizes }
    {
        for owner in &mut self.owners {
            if *owner == Some(grant) {
                *owner = None;
            }
        }
    }
}

impl RadioPool for CodeTree {
    ghost use Rattle.admission.specs.Views.{tree_of};

    ghost radio = { codes };

    ghost state = { tree_of };

    ghost lawful = { TreeLaws.lawful };

    ghost taken = { TreeLaws.taken };

    ghost given = { TreeLaws.given };

    fn held(&self, grant: u8) -> u8 {
        self.sizes.of(grant)
    }

    fn room(&self, given: &GrantSet, size: u8) -> bool
        ensures answer { result ≡ codes.admits (tree_of self.now) (member given.now) size }
        ensures rule { Decides result (RoomFor (free_leaves (tree_of self.now) (member given.now)) size) }
    {
        self.block_for(size, given).is_some()
    }

    fn take(&mut self, grant: u8, size: u8) -> bool
        ensures answer { result ≡ takes codes (tree_of self.old) grant size }
        ensures state { tree_of self.new ≡ after_take codes (tree_of self.old) grant size }
        ensures rule { result ≡ true → Placed (tree_of self.old) (tree_of self.new) grant size }
    {
        if !self.sizes.may_take(grant) {
            return false;
        }
        let Some(leaves) = self.block_for(size, &GrantSet::empty()) else {
            return false;
        };
        self.move_in(grant, leaves);
        self.sizes.take(grant, size);
        true
    }

    fn give(&mut self, grant: u8) -> bool
        ensures answer { result ≡ gives codes (tree_of self.old) grant }
        ensures state { tree_of self.new ≡ after_give codes (tree_of self.old) grant }
        ensures rule { result ≡ true → Cleared (tree_of self.old) (tree_of self.new) grant }
    {
        if !self.sizes.give(grant) {
            return false;
        }
        self.move_out(grant);
        true
    }
}
