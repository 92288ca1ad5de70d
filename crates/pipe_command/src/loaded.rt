//! The lines of a script with the images of their files.

ghost use Rattle.std.specs.Prelude.{◌≤◌, length};

use guest_types::image::{Image, PageMap};

/// A line of a script: the image of its file, and its arguments.
#[derive(Drop)]
pub struct LoadedLine {
    pub image: Image,
    pub args: Vec<u64>,
    pub ghost few: { length args.items ≤ 8 },
}

/// The lines of a script with the images of their files, and the pages of a map, which fit beside each of them.
#[derive(Drop)]
pub struct LoadedScript {
    pub lines: Vec<LoadedLine>,
    pub map: PageMap,
}
