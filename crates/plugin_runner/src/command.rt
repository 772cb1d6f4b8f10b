//! The words of a start.
ghost use Rattle.std.specs.Prelude.{◌≡◌, IfOk};
ghost use Rattle.plugin_runner.specs.Words.{start_words};

use fixed_num::{Text, WordsList};
use std::alloc::{AllocError, Global};

/// The words that a child is started with: the program, `every`, and the arguments of the program.
pub(crate) fn start_words(
    alloc: Global,
    words: &WordsList,
    every: u32,
) -> Result<WordsList, AllocError>
    ensures { IfOk result (λ all. all ≡ start_words words.now every) }
{
    let every = Text::from_str(alloc, itoa::Buffer::new().format(every))?;
    let mut all = words.as_slice().to_vec(alloc)?;
    all.insert(all.len().min(1), every)?;
    Ok(WordsList::from_vec(all))
}
