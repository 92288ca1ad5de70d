//! The files that a command reads.

ghost use Rattle.std.specs.Prelude.{◌≡◌, ◌≢◌, ◌≤◌, [], ◌∷◌, Err, IfSome, IsSome, IsTrue, option_map, string_bytes};
ghost use Rattle.io_edges.specs.Files.{Rose, content};
ghost use Rattle.command_answers.specs.Answer.{IsFileAnswer};
ghost use Rattle.command_line.specs.View.{task_view};
ghost use Rattle.command_answers.specs.Requests.{Asks, IsOk, Read, map_wants, task_wants};
ghost use Rattle.command_answers.specs.Reads.{file_of, map_of, task_files, bytes_in, files_in, IsOfRead, IsMapHeld, IsTaskHeld};

use command_line::command::Task;
use io_edges::files::Files;
use refusals::refusal::Refusal;
use std::alloc::Global;

/// Reads a file.
pub fn read_file<F: Files>(alloc: Global, name: &str, files: &mut F) -> Result<Vec<u8>, Refusal>
    ensures answer { IfSome (F.held files.old)
        (λ held. IsFileAnswer (F.faults files.old) (F.faults files.new) (file_of held name.now) (bytes_in result)) }
    ensures held { F.held files.new ≡ F.held files.old }
    ensures later { F.faults files.old ≤ F.faults files.new }
    ensures failed { result ≡ Err Refusal.File → Rose (F.faults files.old) (F.faults files.new) }
    ensures steady { IsTrue (F.steady files.old) → IsTrue (F.steady files.new) }
    ensures reads { IsTrue (F.steady files.old)
        → IfSome (F.held files.old) (λ held. IsSome (content held name.now) → result ≢ Err Refusal.File) }
    ensures of_read { IsOfRead result }
    ensures asked { Asks IsOk (F.requests files.old) (F.requests files.new) (Read name.now ∷ []) result }
{
    let mut bytes = Vec::new(alloc);
    files.read(alloc, name, &mut bytes)?;
    Ok(bytes)
}

// Reads the file of a page map, where one is named.
fn read_map_file<F: Files>(
    alloc: Global,
    name: &Option<String>,
    files: &mut F,
) -> Result<Vec<u8>, Refusal>
    ensures answer { IfSome (F.held files.old)
        (λ held. IsFileAnswer (F.faults files.old) (F.faults files.new) (map_of held (option_map string_bytes name.now))
        (bytes_in result)) }
    ensures held { F.held files.new ≡ F.held files.old }
    ensures later { F.faults files.old ≤ F.faults files.new }
    ensures failed { result ≡ Err Refusal.File → Rose (F.faults files.old) (F.faults files.new) }
    ensures steady { IsTrue (F.steady files.old) → IsTrue (F.steady files.new) }
    ensures reads { IsTrue (F.steady files.old)
        → IfSome (F.held files.old) (λ held. IsMapHeld held (option_map string_bytes name.now)
        → result ≢ Err Refusal.File) }
    ensures of_read { IsOfRead result }
    ensures asked { Asks IsOk (F.requests files.old) (F.requests files.new)
        (map_wants (option_map string_bytes name.now)) result }
{
    match name {
        Some(name) => read_file(alloc, name.as_str(), files),
        None => Ok(Vec::new(alloc)),
    }
}

/// The bytes of a task's file, and the text of its map.
#[derive(Drop)]
pub struct TaskFiles {
    pub file: Vec<u8>,
    pub map: Vec<u8>,
}

/// Reads the file of a task, and then that of its map.
pub fn read_task<F: Files>(alloc: Global, task: &Task, files: &mut F) -> Result<TaskFiles, Refusal>
    ensures answer { IfSome (F.held files.old)
        (λ held. IsFileAnswer (F.faults files.old) (F.faults files.new) (task_files held (task_view task.now))
        (files_in result)) }
    ensures held { F.held files.new ≡ F.held files.old }
    ensures later { F.faults files.old ≤ F.faults files.new }
    ensures failed { result ≡ Err Refusal.File → Rose (F.faults files.old) (F.faults files.new) }
    ensures steady { IsTrue (F.steady files.old) → IsTrue (F.steady files.new) }
    ensures reads { IsTrue (F.steady files.old)
        → IfSome (F.held files.old) (λ held. IsTaskHeld held (task_view task.now) → result ≢ Err Refusal.File) }
    ensures of_read { IsOfRead result }
    ensures asked { Asks IsOk (F.requests files.old) (F.requests files.new) (task_wants (task_view task.now)) result }
{
    let file = read_file(alloc, task.file.as_str(), files)?;
    let map = read_map_file(alloc, &task.map, files)?;
    Ok(TaskFiles { file, map })
}
