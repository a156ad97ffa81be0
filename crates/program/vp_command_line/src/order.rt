//! What can be asked for.
ghost use Rattle.std.specs.Prelude.{map};
ghost use Rattle.vp_command_line.specs.Asked.{IsAnswer};
ghost use Rattle.vp_command_line.specs.Words.{Choices};

use crate::grammar::program;
use crate::reading::order_of;
use clap::Error;
use std::alloc::Global;
use std::convert::AsStr;
use vp_language::Language;

/// A run of the program. Names of files are used as they are written.
#[derive(Clone, Copy)]
pub enum Order<'a> {
    /// A stream is printed or listed.
    Read(Stream<'a>),
    /// The images of this file are joined.
    Join { file: &'a str, form: Form },
}

/// The form that a joined image is written in.
#[derive(Clone, Copy)]
pub enum Form {
    Pbm,
    Png,
}

/// A stream, and what is done with it.
#[derive(Clone, Copy)]
pub struct Stream<'a> {
    pub task: Task<'a>,
    pub language: Language,
    /// The file to be read, or none for standard input.
    pub file: Option<&'a str>,
}

/// What is done with what is read.
#[derive(Clone, Copy)]
pub enum Task<'a> {
    /// What is read is printed, with the sheets of these files.
    Print(Fonts<'a>),
    /// Its items are listed.
    List,
    /// Its items are listed, each behind its place.
    ListWithOffsets,
}

/// The files of the sheets of the two fonts.
#[derive(Clone, Copy)]
pub struct Fonts<'a> {
    pub a: Option<&'a str>,
    pub b: Option<&'a str>,
}

impl<'a> Order<'a> {
    /// Reads the words, the first of which is the program's name.
    pub fn read<S: AsStr>(alloc: Global, words: &'a [S]) -> Result<Order<'a>, Error>
        ensures { (choices : Choices) × IsAnswer choices (map S.text words.entry.now) result }
    {
        let mut command = program(alloc)?;
        order_of(&mut command, words)
    }
}
