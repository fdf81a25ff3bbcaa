//! How long a patch takes.
use json_edge::read::read_tree;
use patch_object::apply;
use spec_json::tree::{Tree, TreeObject};
use std::io::{self, BufRead, BufReader};
use std::time::Instant;

/// The trees that the lines of the input are, none for a line that is no JSON of whole numbers.
fn read_trees(rt: &HostRuntime) -> io::Result<Vec<Option<Tree>>> {
    let alloc = rt.alloc();
    let mut trees = Vec::new(alloc);
    for line in BufReader::new(alloc, rt.reader())?.lines(alloc) {
        let line = line?;
        trees.push(read_tree(alloc, line.as_str().as_bytes()).ok())?;
    }
    Ok(trees)
}

/// The least time of so many rounds, in nanoseconds.
fn least_time(rt: &HostRuntime, tree: &Tree, patch: &TreeObject, rounds: u32) -> io::Result<u128> {
    let mut least = u128::MAX;
    for _ in 0..rounds {
        let start = Instant::now(rt)?;
        let _came = apply(rt.alloc(), tree, patch);
        least = least.min(start.elapsed(rt)?.as_nanos());
    }
    Ok(least)
}

/// Applies the patch on the second line of the input to the tree on the first so many times, and writes the nanoseconds of the fastest.
pub fn tell(rt: &HostRuntime, rounds: u32) -> io::Result<()> {
    let trees = read_trees(rt)?;
    let [Some(tree), Some(Tree::Object(patch))] = trees.as_slice() else {
        return println!(rt; "a tree and a patch, each on a line");
    };
    let least = least_time(rt, tree, patch, rounds)?;
    println!(rt; "{least}")
}
