//! A tree, a forest with the number of its sources, or either, as a file holds it.
ghost use Rattle.sp_files.specs.Taking.{tree_form, forest_form, either_form};

use crate::content::{FileContent, RowProgress};
use crate::forests::file::ForestFile;
use crate::lines::RowNumbers;
use sp_answer::{Forest, Tree};
use std::alloc::{AllocError, Global};

/// What a tree's or a forest's file holds.
#[derive(Drop)]
pub enum TreeOrForest<const P: u32> {
    Tree(Tree<P>),
    Forest(ForestFile<P>),
}

impl<const P: u32> FileContent<P> for Tree<P> {
    ghost form = { tree_form };

    fn begins(near: bool) -> bool {
        !near
    }

    fn begin(alloc: Global, _near: bool, n: u32, second: u32) -> Self {
        Tree::bare(alloc, n, second)
    }

    fn place(&self) -> RowProgress {
        RowProgress {
            rooted: false,
            n: self.n(),
            last: self.last(),
            rows: self.rows().len(),
        }
    }

    fn push(&mut self, row: RowNumbers) -> Result<(), AllocError> {
        // The numbers of a row are up to this one, and fit in as few bits.
        let _ = self.n();
        self.push_row(row.vertex as u32, row.dist, row.pred as u32)
    }
}

impl<const P: u32> FileContent<P> for ForestFile<P> {
    ghost form = { forest_form };

    fn begins(near: bool) -> bool {
        near
    }

    fn begin(alloc: Global, _near: bool, n: u32, second: u32) -> Self {
        ForestFile {
            forest: Forest::bare(alloc, n),
            sources: second,
        }
    }

    fn place(&self) -> RowProgress {
        RowProgress {
            rooted: true,
            n: self.forest.n(),
            last: self.forest.last(),
            rows: self.forest.rows().len(),
        }
    }

    fn push(&mut self, row: RowNumbers) -> Result<(), AllocError> {
        // The numbers of a row are up to this one, and fit in as few bits.
        let _ = self.forest.n();
        let root = row.root.unwrap_or(0) as u32;
        self.forest
            .push_row(row.vertex as u32, row.dist, row.pred as u32, root)
    }
}

impl<const P: u32> FileContent<P> for TreeOrForest<P> {
    ghost form = { either_form };

    fn begins(_near: bool) -> bool {
        true
    }

    fn begin(alloc: Global, near: bool, n: u32, second: u32) -> Self {
        if near {
            TreeOrForest::Forest(FileContent::begin(alloc, near, n, second))
        } else {
            TreeOrForest::Tree(FileContent::begin(alloc, near, n, second))
        }
    }

    fn place(&self) -> RowProgress {
        match self {
            TreeOrForest::Tree(tree) => tree.place(),
            TreeOrForest::Forest(file) => file.place(),
        }
    }

    fn push(&mut self, row: RowNumbers) -> Result<(), AllocError> {
        match self {
            TreeOrForest::Tree(tree) => tree.push(row),
            TreeOrForest::Forest(file) => file.push(row),
        }
    }
}
