//! Local lists: an opened object, and then the targets of the needs of those in the list,
//! breadth-first.
//!
//! dlopen(3). Local lists are said in `specs/Runs.antt` of `load_model`, and over targets in
//! `specs/Reaching.antt`.

ghost use Rattle.std.specs.Prelude.{◌≡◌, ◌<◌, All, IfOk, OnOk, length};
ghost use Rattle.load_model.specs.LoadList.{with_numbers};
ghost use Rattle.load_model.specs.Runs.{AreBelow};
ghost use Rattle.load_order.specs.Reaching.{AreReaches, IsReach};

use load_model::List;
use path_text::NoMemory;
use std::alloc::Global;

/// The local list of each root.
pub fn local_lists(
    alloc: Global,
    targets: &[List<u32>],
    roots: &[u32],
) -> Result<List<List<u32>>, NoMemory>
    requires targets { All (AreBelow (length targets.now)) targets.now }
    requires roots { AreBelow (length targets.now) roots.now }
    ensures { IfOk result (λ lists. AreReaches targets.now roots.now lists) }
{
    let mut lists = List::new(alloc);
    for root in roots {
        lists.push(local_list(alloc, targets, *root)?)?;
    }
    Ok(lists)
}

/// The root, and then what the objects of the list need, each at its first occurrence.
fn local_list(alloc: Global, targets: &[List<u32>], root: u32) -> Result<List<u32>, NoMemory>
    requires targets { All (AreBelow (length targets.now)) targets.now }
    requires root { root < length targets.now }
    ensures reach { IfOk result (λ list. IsReach targets.now root list) }
    ensures below { IfOk result (λ list. AreBelow (length targets.now) list) }
{
    let mut list = List::new(alloc);
    list.push(root)?;
    let mut at = 0;
    'reach: while at < list.as_slice().len() {
        let number = list.as_slice()[at];
        add_new(targets[number as usize].as_slice(), &mut list)?;
        at += 1;
    }
    Ok(list)
}

/// Adds those numbers that the list does not have yet.
#[tactic(auto, unfolding(load_model::specs::LoadList::with_numbers))]
fn add_new(numbers: &[u32], list: &mut List<u32>) -> Result<(), NoMemory>
    ensures { OnOk result (list.new ≡ with_numbers list.old numbers.now) }
{
    for number in numbers {
        if !list.as_slice().contains(number) {
            list.push(*number)?;
        }
    }
    Ok(())
}
