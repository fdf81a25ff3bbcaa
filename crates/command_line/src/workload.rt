//! The words of `workload`.

use crate::counts::{count_in, number_up_to};
use crate::options::{matches_in, workload_command};
use std::alloc::{AllocError, Global};

/// The greatest number that the generator of a workload begins with.
pub const MAX_NUMBER: u64 = 65536;
/// The most requests of a workload.
pub const MAX_SIZE: u64 = 2000;

/// What `workload` is to do.
#[derive(Clone, Copy, Debug)]
pub struct Workload {
    /// What the generator begins with, up to 65536.
    pub number: u32,
    /// How many requests are made, from 1 to 2000.
    pub size: u32,
}

impl Workload {
    ghost use Rattle.std.specs.Prelude.{◌≡◌, IfOk, map, option_map, string_bytes};
    ghost use Rattle.command_line.specs.Commands.{workload_of, workload_with};
    ghost use Rattle.command_line.specs.Shown.{workload_shown};

    /// What the words behind `workload` ask for, or `None` where they aren't its words.
    ///
    /// Takes memory for what `clap` keeps until the words are read.
    pub(crate) fn read(alloc: Global, words: &[String]) -> Result<Option<Workload>, AllocError>
        ensures { IfOk result (λ workload. option_map workload_shown workload ≡ workload_of (map string_bytes words.entry.now)) }
    {
        let command = workload_command(alloc)?;
        let Some(matches) = matches_in(command, words)? else {
            return Ok(None);
        };
        Ok(Workload::with(matches.get_str("number"), matches.get_str("size")))
    }

    // What the values of the options ask for.
    fn with(number: Option<&str>, size: Option<&str>) -> Option<Workload>
        ensures { option_map workload_shown result ≡ workload_with (option_map (λ s. s.now) number.entry) (option_map (λ s. s.now) size.entry) }
    {
        let number = number_up_to(number?, MAX_NUMBER)?;
        let size = count_in(size?, MAX_SIZE)?;
        Some(Workload {
            number: number as u32,
            size: size as u32,
        })
    }
}
