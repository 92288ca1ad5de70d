//! The items of a kernel, with what stands in them.

ghost use Rattle.std.specs.Prelude.{◌≡◌, ◌+◌, ◌≤◌, ◌++◌, length, option_map};
ghost use Rattle.arrayvec.specs.ArrayVec.{array_vec_len};
ghost use Rattle.kernel_tree.specs.Plain.{parameters_of, for_loop_of, returned_of};
ghost use Rattle.kernel_tree.specs.Items.{loop_index, loop_start, size_of, for_loop_size, answer_size, index_of};
ghost use Rattle.loop_form.specs.Entries.{params_entries, for_loop_entries, answer_entries, entries_of, loop_entries};
ghost use Rattle.loop_form.specs.Near.{AreNear};
ghost use Rattle.loop_form.specs.View.{program, entries_view};
ghost use Rattle.loop_lists.specs.ItemLists.{AreItems};

use crate::items::Items;
use crate::walk::{Context, list_block, list_ended, list_vars, put};
use kernel_tree::{Answer, Checked, Loop, Param};
use loop_form::entry::Entries;
use loop_form::laws::{few_items, near_offsets, numbered_items};
use loop_form::size::statements_size;
use loop_form::{Content, Entry, ItemKind, vars_size_of};

/// The number of the loop's `for`.
#[tactic(auto, unfolding(loop_form::specs::View::program))]
pub fn first_item(kernel: &Checked) -> u32
    ensures { result ≡ loop_start (program kernel.now) }
{
    few_items(kernel);
    let tree = kernel.kernel();
    tree.params.len() as u32 + vars_size_of(kernel, &tree.vars)
}

// The items of a loop.
fn for_loop_size_of(kernel: &Checked, for_loop: &Option<Loop>) -> u32
    requires fits { for_loop_size (option_map for_loop_of for_loop.now) ≤ 1000 }
    requires index { loop_index (program kernel.now) ≡ option_map index_of (option_map for_loop_of for_loop.now) }
    ensures { result ≡ for_loop_size (option_map for_loop_of for_loop.now) }
{
    match for_loop {
        None => 0,
        Some(for_loop) => 1 + statements_size(kernel, &for_loop.body),
    }
}

fn list_params(kernel: &Checked, entries: &mut Entries<'_>, params: &[Param])
    requires { array_vec_len entries.old + length params.now ≤ 1000 }
    ensures items { entries_view entries.new.items ≡ entries_view entries.old.items
        ++ params_entries (program kernel.now) 0 (parameters_of params.now) }
    ensures len { array_vec_len entries.new ≡ array_vec_len entries.old + length params.now }
{
    let mut item = 0;
    for _param in params {
        put(kernel, entries, item, Content::Plain(ItemKind::Param), item);
        item += 1;
    }
}

fn list_for_loop<'a>(
    kernel: &Checked,
    entries: &mut Entries<'a>,
    from: u32,
    for_loop: &'a Option<Loop>,
)
    requires following { array_vec_len entries.old ≤ from }
    requires fits { from + for_loop_size (option_map for_loop_of for_loop.now) ≤ 1000 }
    requires index { loop_index (program kernel.now) ≡ option_map index_of (option_map for_loop_of for_loop.now) }
    ensures items { entries_view entries.new.items ≡ entries_view entries.old.items
        ++ for_loop_entries (program kernel.now) from (option_map for_loop_of for_loop.now) }
    ensures len { array_vec_len entries.new
        ≡ array_vec_len entries.old + for_loop_size (option_map for_loop_of for_loop.now) }
{
    if let Some(for_loop) = for_loop {
        put(kernel, entries, from, Content::Plain(ItemKind::For), from);
        let at = Context {
            kernel,
            from: from + 1,
        };
        list_block(at, entries, &for_loop.body);
    }
}

fn list_answer<'a>(
    kernel: &Checked,
    entries: &mut Entries<'a>,
    from: u32,
    answer: &'a Option<Answer>,
)
    requires following { array_vec_len entries.old ≤ from }
    requires fits { from + answer_size (loop_index (program kernel.now)) (option_map returned_of answer.now) ≤ 1000 }
    ensures items { entries_view entries.new.items ≡ entries_view entries.old.items
        ++ answer_entries (program kernel.now) from (option_map returned_of answer.now) }
    ensures len { array_vec_len entries.new ≡ array_vec_len entries.old + answer_size (loop_index (program kernel.now))
        (option_map returned_of answer.now) }
{
    if let Some(answer) = answer {
        let content = Content::Plain(ItemKind::Return);
        list_ended(Context { kernel, from }, entries, &answer.value, content);
    }
}

/// The items of a kernel, in their order.
#[tactic(auto, unfolding(loop_form::specs::View::program))]
pub fn entries(kernel: &Checked) -> Entries<'_>
    ensures items { entries_view result.items ≡ entries_of (program kernel.now) }
    ensures len { array_vec_len result ≡ size_of (program kernel.now) }
    ensures small { array_vec_len result ≤ 1000 }
{
    few_items(kernel);
    let tree = kernel.kernel();
    let vars = tree.params.len() as u32;
    let start = first_item(kernel);
    let end = start + for_loop_size_of(kernel, &tree.body);
    let mut entries = Entries::new();
    list_params(kernel, &mut entries, &tree.params);
    list_vars(Context { kernel, from: vars }, &mut entries, &tree.vars);
    list_for_loop(kernel, &mut entries, start, &tree.body);
    list_answer(kernel, &mut entries, end, &tree.answer);
    entries
}

/// The items of the loop, in their order.
#[tactic(auto, unfolding(loop_form::specs::View::program))]
pub fn loop_entries(kernel: &Checked) -> Entries<'_>
    ensures items { entries_view result.items ≡ loop_entries (program kernel.now) }
    ensures near { AreNear (loop_index (program kernel.now)) (entries_view result.items) }
    ensures small { array_vec_len result ≤ 1000 }
{
    few_items(kernel);
    near_offsets(kernel);
    let mut entries = Entries::new();
    list_for_loop(
        kernel,
        &mut entries,
        first_item(kernel),
        &kernel.kernel().body,
    );
    entries
}

/// All items of a kernel and those of its loop, listed once.
pub fn list_items(kernel: &Checked) -> Items<'_>
    ensures { AreItems (program kernel.now) result }
{
    Items {
        all: entries(kernel),
        looped: loop_entries(kernel),
    }
}

/// How many items a kernel has, by all of them.
pub fn item_count(kernel: &Checked, all: &[Entry<'_>]) -> u32
    requires { entries_view all.now ≡ entries_of (program kernel.now) }
    ensures { result ≡ size_of (program kernel.now) }
{
    few_items(kernel);
    numbered_items(kernel);
    all.len() as u32
}

/// The items of the loop are few, and the offsets of its stream indexes near.
pub fn few_looped(kernel: &Checked, looped: &[Entry<'_>])
    requires { entries_view looped.now ≡ loop_entries (program kernel.now) }
    ensures small { length looped.now ≤ 1000 }
    ensures near { AreNear (loop_index (program kernel.now)) (entries_view looped.now) }
{
    few_items(kernel);
    numbered_items(kernel);
    near_offsets(kernel);
}
