//! The posts of workers: passes are split for them, and joined when their work is done.
ghost use Rattle.std.specs.Prelude.{◌≡◌, ◌≢◌, ◌+◌, ◌≤◌, ◌<◌, [], length, vec_len, vec_capacity, ◌^◌, IfOk, OnOk, OnErr};
ghost use Rattle.std.specs.List.{AllByRecursion};
ghost use mathlib.Core.List.{IsPrefix};
ghost use Rattle.kn_registry.specs.Passes.{IsReady};
ghost use Rattle.kn_workers.specs.Workers.{splits_from, after_joins, IsRejoined};
ghost use Rattle.kn_workers.specs.Posts.{IsSplit, posts_of, doors_of, passes_of, all_finished, some_failed, AllSeenIn};

use crate::post::Post;
use crate::worker::ServeEnd;
use kn_base::{List, NoMemory, Reserved};
use kn_registry::{Pass, Registry};
use std::alloc::Global;

/// So many passes, split from the root.
pub(crate) fn split_all(
    alloc: Global,
    reg: &Registry,
    root: &mut Pass,
    count: u32,
) -> Result<List<Pass>, NoMemory>
    requires ready { IsReady reg.now root.old }
    requires root { root.old.number ≡ 0 }
    requires room { root.old.splits + count ≤ 63 }
    ensures ready { IsReady reg.now root.new }
    ensures passes { IfOk result (λ passes. passes ≡ splits_from root.old count) }
    ensures root { OnOk result (root.new ≡ record root.old { splits = root.old.splits + count }) }
    ensures refused { OnErr result (IsRejoined root.old root.new) }
{
    let mut passes = Reserved::new(alloc);
    passes.reserve(count)?;
    'splits: for _ in 0..count {
        match reg.split(root) {
            Ok(pass) => passes.put(pass),
            Err(NoMemory) => {
                join_all(reg, root, passes.finish());
                return Err(NoMemory);
            }
        }
    }
    Ok(passes.finish())
}

/// Joins all passes into the root, in their order.
fn join_all(reg: &Registry, root: &mut Pass, passes: List<Pass>)
    requires ready { IsReady reg.now root.old }
    requires split { AllByRecursion (IsSplit reg.now) passes }
    ensures ready { IsReady reg.now root.new }
    ensures joined { root.new ≡ after_joins root.old passes }
{
    let mut passes = passes;
    'joins: while !passes.is_empty() {
        let pass = passes.remove(0);
        reg.join(root, pass);
    }
}

/// Each door with a pass, in their order.
pub(crate) fn post_all<D: Drop>(
    doors: &mut List<D>,
    passes: List<Pass>,
    posts: Vec<Post<D>>,
) -> Vec<Post<D>>
    requires none { posts.items ≡ [] }
    requires room { length doors.old ≤ vec_capacity posts }
    requires count { length passes ≡ length doors.old }
    ensures posts { result.items ≡ posts_of doors.old passes }
    ensures rest { doors.new ≡ [] }
{
    let mut passes = passes;
    let mut posts = posts;
    'posts: while !doors.is_empty() {
        let post = Post {
            door: doors.remove(0),
            pass: passes.remove(0),
            end: ServeEnd {
                finished: 0,
                failed: false,
            },
        };
        match posts.push(post) {
            Ok(()) => {}
            Err(_) => unreachable!(),
        }
    }
    posts
}

/// Joins the passes of all posts into the root, in their order, and gives how their work ended and their doors.
pub(crate) fn gather<D: Drop>(
    reg: &Registry,
    root: &mut Pass,
    posts: Vec<Post<D>>,
    doors: Reserved<D>,
) -> (ServeEnd, List<D>)
    requires ready { IsReady reg.now root.old }
    requires split { AllByRecursion (IsSplit reg.now) (passes_of posts.items) }
    requires none { doors.items ≡ [] }
    requires room { vec_len posts ≤ doors.spare }
    requires few { all_finished posts.items < 2 ^ 32 }
    ensures ready { IsReady reg.now root.new }
    ensures joined { root.new ≡ after_joins root.old (passes_of posts.items) }
    ensures seen { IsPrefix root.old.seen root.new.seen × AllSeenIn root.new.seen (passes_of posts.items) }
    ensures finished { result.0.finished ≡ all_finished posts.items }
    ensures failed { result.0.failed ≡ some_failed posts.items }
    ensures doors { result.1 ≡ doors_of posts.items }
{
    let mut posts = posts;
    let mut doors = doors;
    let mut finished: u32 = 0;
    let mut failed = false;
    'posts: while !posts.is_empty() {
        let Post { door, pass, end } = posts.remove(0);
        reg.join(root, pass);
        doors.put(door);
        finished += end.finished;
        failed = failed || end.failed;
    }
    (ServeEnd { finished, failed }, doors.finish())
}
