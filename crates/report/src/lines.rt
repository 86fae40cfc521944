//! The lines of a file.

ghost use Rattle.std.specs.Prelude.{◌≡◌, ◌≤◌, ℕ, List, length, IfOk};
ghost use Rattle.report.specs.Lines.{line_feeds, line_of};

use crate::outside::FILE_LIMIT;
use base::memory::NoMemory;
use std::alloc::Global;
use std::marker::Model;

/// The line feeds of a file, for finding the line of a byte offset by binary search.
#[derive(Drop)]
pub struct LineFeeds {
    positions: Vec<u32>,
}

impl Model for LineFeeds {
    ghost use Rattle.std.specs.Prelude.{ℕ, List, ◌≤◌, vec_len};

    ghost Value = { List ℕ };

    ghost view = { λ feeds. feeds.positions.items };

    ghost invariant = { λ feeds. vec_len feeds.positions ≤ 1048576 };
}

impl LineFeeds {
    /// The line feeds of a file's bytes. `NoMemory` if memory runs out.
    pub fn new(alloc: Global, bytes: &[u8]) -> Result<LineFeeds, NoMemory>
        requires { length bytes.now ≤ FILE_LIMIT }
        ensures { IfOk result (λ feeds. feeds ≡ line_feeds bytes.now) }
    {
        let mut positions = Vec::new(alloc);
        for (position, byte) in bytes.iter().enumerate() {
            if *byte == b'\n' {
                positions.push(position as u32)?;
            }
        }
        Ok(LineFeeds { positions })
    }

    /// The line, counted from 1, of a byte offset in the file, counted from 0.
    pub fn line(&self, position: u32) -> u32
        ensures { (bytes : List ℕ) → self.now ≡ line_feeds bytes → result ≡ line_of bytes position }
    {
        self.positions.partition_point(|feed| *feed < position) as u32 + 1
    }
}
